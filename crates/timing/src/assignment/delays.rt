// The choice of each module, the shifters that the nets need, and the delays that follow.
ghost use Rattle.std.specs.Prelude.{◌≡◌, ◌≤◌, if◌then◌else◌};
ghost use Rattle.netlist.specs.Rules.{choice as choice_of, net as net_of};
ghost use Rattle.timing.specs.Assignments.{supply as supply_of};
ghost use Rattle.timing.specs.Paths.{model as model_of, net_delay as delay_along};
ghost use Rattle.timing.specs.Shifters.{needs_shifter};
ghost use Rattle.timing.specs.View.{planned, named};

use super::Assignment;
use crate::delays::DelayModel;
use crate::shifter::climbs;
use netlist::parts::{Choice, Shifter};

// Every signal is launched at time 0.
const LAUNCH: u32 = 0;

impl Assignment<'_, '_> {
    // The supply that it names for a module, 0 where there is no such module.
    pub fn supply(&self, module: u32) -> u32
        ensures { result ≡ supply_of (named self.now) «module» }
    {
        let named = self.supplies.get(module as usize);
        named.map_or(0, |supply| u32::from(*supply))
    }

    // Delay and power of a module at its supply, none where there is no such module.
    pub fn choice(&self, module: u32) -> Choice
        ensures { result ≡ choice_of (planned self.now) «module» (supply_of (named self.now) «module») }
    {
        let Some(menu) = self.design.menus().get(module as usize) else {
            return Choice::NONE;
        };
        menu.values[self.supply(module) as usize]
    }

    // Whether a net needs a shifter, false where there is no such net.
    pub fn needs_shifter(&self, net: u32) -> bool
        ensures { result ≡ needs_shifter (planned self.now) (named self.now) net }
    {
        let Some(ends) = self.design.nets().get(net as usize) else {
            return false;
        };
        let from = self.supply(ends.driver);
        let to = self.supply(ends.receiver);
        climbs(self.design, from, to)
    }

    // The wire delay of a net, 0 where there is no such net.
    pub fn wire_delay(&self, net: u32) -> u32
        ensures value { result ≡ (net_of (planned self.now) net).wire }
        ensures bound { result ≤ 10000 }
    {
        self.design
            .nets()
            .get(net as usize)
            .map_or(0, |found| found.wire)
    }

    // The shifter on a net, if it needs one.
    pub(super) fn shifter(&self, net: u32) -> Option<Shifter>
        ensures { result ≡ (if needs_shifter (planned self.now) (named self.now) net then Some (planned self.now).terms.shifter else None) }
    {
        self.needs_shifter(net).then(|| self.design.terms().shifter)
    }

    // The shifter delay where a net needs a shifter, else 0.
    pub fn shifter_delay(&self, net: u32) -> u32
        ensures value { result ≡ (if needs_shifter (planned self.now) (named self.now) net then (planned self.now).terms.shifter.delay else 0) }
        ensures bound { result ≤ 10000 }
    {
        self.shifter(net).map_or(0, |shifter| shifter.delay)
    }

    pub fn net_delay(&self, net: u32) -> u32
        ensures value { result ≡ delay_along (planned self.now) (named self.now) net }
        ensures bound { result ≤ 20000 }
    {
        self.wire_delay(net) + self.shifter_delay(net)
    }
}

impl<'d, 's> DelayModel for Assignment<'d, 's> {
    ghost model = { λ x. model_of (planned x) (named x) };

    fn start(&self, at: u32) -> u32 {
        LAUNCH
    }

    fn at_module(&self, at: u32) -> u32 {
        self.choice(at).delay
    }

    fn on_net(&self, along: u32) -> u32 {
        self.net_delay(along)
    }
}
