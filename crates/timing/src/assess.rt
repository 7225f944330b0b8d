// Any bytes as a would-be assignment: whether they are one, and its figures.
ghost use Rattle.std.specs.Prelude.{◌≡◌, MatchOption};
ghost use Rattle.netlist.specs.View.{view};
ghost use Rattle.timing.specs.Assess.{assessed, Judged};
ghost use Rattle.timing.specs.Assignments.{Assigns};
ghost use Rattle.timing.specs.Published.{OneToOne};

use crate::assignment::Assignment;
use netlist::design::Design;

// Its power, the longest delay of a path, and whether it meets the cycle, which is a figure like the others.
#[derive(Clone, Copy, PartialEq, Eq, Debug)]
pub struct Figures {
    pub power: u32,
    pub delay: u32,
    pub meets: bool,
}

// None where the bytes do not name one supply of its menu for each module.
pub fn assess(design: &Design, supplies: &[u8]) -> Option<Figures>
    ensures value { result ≡ assessed (view design.now) supplies.now }
    ensures words { MatchOption result (Assigns (view design.now) supplies.now → ⊥) (Judged (view design.now) supplies.now) }
    ensures one_to_one { OneToOne (view design.now) }
{
    let assignment = Assignment::of(design, supplies)?;
    let delay = assignment.longest_delay();
    Some(Figures {
        power: assignment.power(),
        delay,
        meets: delay <= design.terms().cycle,
    })
}
