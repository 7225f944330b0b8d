// The figures of the worked example, from the definitions and from the code.
#![tactic(auto)]

ghost use Rattle.timing_tests.specs.Figures.{ExampleFigures};

#[cfg(test)]
mod figures;

// Every assignment of the worked example, computed from the definitions.
pub fn figures_stand()
    ensures { ExampleFigures }
{}
