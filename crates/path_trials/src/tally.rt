// What the trials have met with.
use std::fmt;

pub mod assignments;
pub mod designs;
pub mod flaws;

use assignments::AssignmentTally;
use designs::DesignTally;
use flaws::FlawTally;

#[derive(Default, Drop)]
pub struct Tally {
    pub designs: DesignTally,
    pub assignments: AssignmentTally,
    pub flaws: FlawTally,
}

impl fmt::Display for Tally {
    fn fmt<W: fmt::Write>(&self, f: &mut fmt::Formatter<W>) -> fmt::Result {
        let Tally {
            designs,
            assignments,
            flaws,
        } = self;
        write!(f, "{designs}\n{assignments}\n{flaws}")
    }
}

// A number of things, which stops at its top.
#[derive(Clone, Copy, Default)]
struct Counter(usize);

impl Counter {
    fn add(&mut self, more: usize) {
        self.0 = self.0.saturating_add(more);
    }

    fn add_if(&mut self, happened: bool) {
        self.add(usize::from(happened));
    }
}

impl fmt::Display for Counter {
    fn fmt<W: fmt::Write>(&self, f: &mut fmt::Formatter<W>) -> fmt::Result {
        let Counter(count) = self;
        write!(f, "{count}")
    }
}
