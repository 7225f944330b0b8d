// Menus as they are handed in: only the choices at the bits of the map are read.
ghost use Rattle.std.specs.Prelude.{◌≡◌};
ghost use Rattle.netlist.specs.Calls.{menu_of};

use crate::parts::{Choice, Menu};

impl Menu {
    // Nothing is left of a choice whose bit does not stand.
    pub(crate) fn trimmed(&self) -> Menu
        ensures { result ≡ menu_of self.now.map self.now.values }
    {
        let mut values = [Choice::NONE; 8];
        for (i, choice) in self.standing() {
            values[i as usize] = choice;
        }
        Menu {
            map: self.map,
            values,
        }
    }
}
