// The timing of an assignment.
ghost use Rattle.std.specs.Prelude.{◌≡◌, ℕ, ◌-◌, ◌<◌, max, ◌++◌, replicate, IsTrue, ◌↔◌, fold, slice_index};
ghost use Rattle.netlist.specs.Netlist.{modules};
ghost use Rattle.timing.specs.Arrivals.{latest, longest_delay, LongestTo, Longest, meets as meets_cycle};
ghost use Rattle.timing.specs.Paths.{timed, Meets};
ghost use Rattle.timing.specs.Published.{InTime, selection_of};
ghost use Rattle.timing.specs.View.{planned, named};

use super::Assignment;
use crate::walk::walk;
use crate::way::Latest;

impl Assignment<'_, '_> {
    // The latest arrival at each module, the longest delay of a path that ends there; 0 behind the last module.
    pub fn arrivals(&self) -> [u32; 64]
        ensures value { result ≡ latest (planned self.now) (named self.now) ++ replicate (64 - modules (planned self.now)) 0 }
        ensures paths { (m : ℕ) → m < modules (planned self.now) → LongestTo (timed (planned self.now) (named self.now)) m (slice_index result m) }
    {
        walk::<Latest, Self>(self.design, self)
    }

    // The longest delay of a path, 0 where there is none.
    pub fn longest_delay(&self) -> u32
        ensures value { result ≡ longest_delay (planned self.now) (named self.now) }
        ensures paths { Longest (timed (planned self.now) (named self.now)) result }
    {
        greatest(&self.arrivals()[0..self.supplies.len()])
    }

    // Whether no path's delay exceeds the cycle time: the published timing constraint.
    pub fn meets(&self) -> bool
        ensures value { result ≡ meets_cycle (planned self.now) (named self.now) }
        ensures paths { IsTrue result ↔ Meets (planned self.now) (named self.now) }
        ensures published { IsTrue result ↔ InTime (planned self.now) (selection_of (planned self.now) (named self.now)) }
    {
        self.longest_delay() <= self.design.terms().cycle
    }
}

fn greatest(times: &[u32]) -> u32
    ensures { result ≡ fold max 0 times.now }
{
    times.iter().copied().fold(0, u32::max)
}
