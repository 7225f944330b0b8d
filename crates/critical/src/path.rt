// A path of a design.
ghost use Rattle.std.specs.Prelude.{◌≤◌};

pub mod trace;

// The module at which it ends, and the numbers of its nets, the last one first. An array with its length, so that a
// path can be copied.
#[derive(Clone, Copy)]
pub struct CriticalPath {
    end: u32,
    nets: [u32; 64],
    count: usize,
    ghost few: { count ≤ 64 },
}
