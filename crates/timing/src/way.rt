// What is kept of two arrivals.
ghost use Rattle.std.specs.Prelude.{◌≡◌, ℕ, max};
ghost use Rattle.timing.specs.Arrivals.{KeepsOne};
ghost use Rattle.timing.specs.Ways.{keeps_later};

// A way of keeping one of two arrivals; order and grouping do not matter, and a delay may be added before or after.
pub trait Way {
    ghost keeps: { ℕ → ℕ → ℕ };

    fn keep(a: u32, b: u32) -> u32
        ensures { result ≡ keeps a b };

    ghost one: { KeepsOne keeps };
}

// The later of two.
pub struct Latest;

impl Way for Latest {
    ghost keeps = { max };

    ghost one = { keeps_later };

    fn keep(a: u32, b: u32) -> u32 {
        a.max(b)
    }
}
