// Drafts, records and their refusals on examples.
#![tactic(auto)]

ghost use Rattle.record_tests.specs.Example.{OneRecord};

#[cfg(test)]
mod drafts;
#[cfg(test)]
mod records;

// The worked example and its record, computed from the definitions.
pub fn example_stands()
    ensures { OneRecord }
{}
