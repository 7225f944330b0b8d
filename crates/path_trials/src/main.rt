// Holds the timing and power of small random designs to a count of all their paths, one by one.
#![tactic(auto)]

mod build;
mod compare;
mod draw;
mod paths;
mod random;
mod tables;
mod tally;
mod trial;

use crate::trial::Trials;

fn main(rt: HostRuntime) -> anyhow::Result<()> {
    Trials::new(&rt)?.run()
}
