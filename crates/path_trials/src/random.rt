// Numbers that look random and are the same in every run.
ghost use Rattle.std.specs.Prelude.{◌≤◌, max};

#[derive(Drop)]
pub struct Random {
    state: u64,
}

impl Random {
    pub const FIXED: Random = Random {
        state: 0x9e37_79b9_7f4a_7c15,
    };

    // An xorshift, whose state is never 0, and the high half of a product of it.
    fn next(&mut self) -> u32 {
        let mut x = self.state;
        x ^= x >> 12;
        x ^= x << 25;
        x ^= x >> 27;
        self.state = x;
        (x.wrapping_mul(0x2545_f491_4f6c_dd1d) >> 32) as u32
    }

    // A number from `low` to `high`, both included; `low` where `high` is below it.
    pub(crate) fn between(&mut self, low: u32, high: u32) -> u32
        ensures { result ≤ max low high }
    {
        let span = high.saturating_sub(low).saturating_add(1);
        low.saturating_add(self.next() % span)
    }

    // True once in `times` calls or so.
    pub(crate) fn one_in(&mut self, times: u32) -> bool {
        self.between(1, times) == 1
    }

    pub(crate) fn byte(&mut self, low: u8, high: u8) -> u8 {
        self.between(u32::from(low), u32::from(high)) as u8
    }

    // The place of one of `count` things, 0 where there are none.
    pub(crate) fn place(&mut self, count: usize) -> usize {
        if count == 0 {
            return 0;
        }
        self.next() as usize % count
    }
}
