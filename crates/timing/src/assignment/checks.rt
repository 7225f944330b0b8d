// Which bytes are an assignment.
ghost use Rattle.std.specs.Prelude.{◌≡◌, is_some, IfSome, MatchOption};
ghost use Rattle.netlist.specs.View.{view};
ghost use Rattle.timing.specs.Assignments.{Assigns, assigns, all_offered};
ghost use Rattle.timing.specs.View.{planned, named};

use super::Assignment;
use netlist::design::Design;
use netlist::parts::{Menu, stands};

impl<'d, 's> Assignment<'d, 's> {
    // The bytes as an assignment, if they name one supply of its menu for each module.
    pub fn of(design: &'d Design, supplies: &'s [u8]) -> Option<Assignment<'d, 's>>
        ensures test { is_some result ≡ assigns (view design.now) supplies.now }
        ensures words { MatchOption result (Assigns (view design.now) supplies.now → ⊥) (λ x. Assigns (planned x) (named x)) }
        ensures same { IfSome result (λ x. (planned x ≡ view design.now) × (named x ≡ supplies.now)) }
    {
        if !all_offered(design.menus(), supplies) {
            return None;
        }
        Some(Assignment { design, supplies })
    }

    // The design that it is of.
    pub fn design(&self) -> &'d Design
        ensures { view result.now ≡ planned self.now }
    {
        self.design
    }
}

fn all_offered(menus: &[Menu], supplies: &[u8]) -> bool
    ensures { result ≡ all_offered menus.now supplies.now }
{
    menus.len() == supplies.len()
        && menus
            .iter()
            .zip(supplies)
            .all(|(menu, supply)| stands(menu.map, u32::from(*supply)))
}
