// Draws designs at random, their assignments, and bytes that are none.
use crate::random::Random;
use std::alloc::Global;

pub mod assignment;
mod design;

#[derive(Drop)]
pub struct Drawer {
    heap: Global,
    random: Random,
}

impl Drawer {
    pub(crate) fn new(heap: Global) -> Drawer {
        Drawer {
            heap,
            random: Random::FIXED,
        }
    }

    // A cycle near a delay, often just met or just missed.
    pub(crate) fn cycle_near(&mut self, delay: u32) -> u32 {
        let cycle = match self.random.between(0, 3) {
            0 => delay,
            1 => delay.saturating_sub(1),
            _ => self.random.between(delay / 2, delay.saturating_mul(2)),
        };
        cycle.max(1)
    }
}
