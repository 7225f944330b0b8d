// One supply of its menu for each module of a design.
ghost use Rattle.std.specs.Prelude.{◌≡◌, true};
ghost use Rattle.netlist.specs.View.{view};
ghost use Rattle.timing.specs.Assignments.{assigns};

use netlist::design::Design;

mod arrivals;
mod checks;
pub mod delays;
mod power;

#[derive(Clone, Copy)]
pub struct Assignment<'d, 's> {
    design: &'d Design,
    supplies: &'s [u8],
    ghost ok: { assigns (view design.now) supplies.now ≡ true },
}
