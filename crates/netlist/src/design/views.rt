// What a design holds.
ghost use Rattle.std.specs.Prelude.{◌≡◌};
ghost use Rattle.netlist.specs.FanIn.{fan_in};
ghost use Rattle.netlist.specs.View.{view};

use super::Design;
use crate::parts::{Menu, Net, Supplies, Terms};

impl Design {
    pub fn terms(&self) -> Terms
        ensures { result ≡ (view self.now).terms }
    {
        self.terms
    }

    pub fn supplies(&self) -> Supplies
        ensures { result ≡ (view self.now).supplies }
    {
        self.supplies
    }

    pub fn menus(&self) -> &[Menu]
        ensures { result.now ≡ (view self.now).menus }
    {
        self.menus.as_slice()
    }

    pub fn nets(&self) -> &[Net]
        ensures { result.now ≡ (view self.now).nets }
    {
        self.nets.as_slice()
    }

    // The numbers of the nets into a module, lowest first; none where there is no such module.
    pub fn fan_in(&self, module: u32) -> &[u32]
        ensures { result.now ≡ fan_in (view self.now) «module» }
    {
        if module >= 64 {
            return &[];
        }
        self.nets.fan_in(module)
    }
}
