// The power of an assignment.
ghost use Rattle.std.specs.Prelude.{◌≡◌, ◌*◌, ◌≤◌, length};
ghost use Rattle.netlist.specs.Netlist.{modules};
ghost use Rattle.timing.specs.Power.{power as power_of, module_power, net_power as power_along};
ghost use Rattle.timing.specs.Published.{objective, selection_of};
ghost use Rattle.timing.specs.Sums.{sum_below};
ghost use Rattle.timing.specs.View.{planned, named};

use super::Assignment;

impl Assignment<'_, '_> {
    // The shifter power where a net needs a shifter, else 0.
    fn net_power(&self, net: u32) -> u32
        ensures value { result ≡ power_along (planned self.now) (named self.now) net }
        ensures bound { result ≤ 10000 }
    {
        self.shifter(net).map_or(0, |shifter| shifter.power)
    }

    fn modules_power(&self) -> u32
        ensures value { result ≡ sum_below (modules (planned self.now)) (module_power (planned self.now) (named self.now)) }
        ensures bound { result ≤ 64000000 }
    {
        let modules = self.design.menus().len() as u32;
        (0..modules).map(|m| self.choice(m).power).sum()
    }

    fn shifters_power(&self) -> u32
        ensures value { result ≡ sum_below (length (planned self.now).nets) (power_along (planned self.now) (named self.now)) }
        ensures bound { result ≤ 2560000 }
    {
        let nets = self.design.nets().len() as u32;
        (0..nets).map(|i| self.net_power(i)).sum()
    }

    // The power of all modules, and of a shifter for each net that needs one: the published objective.
    pub fn power(&self) -> u32
        ensures value { result ≡ power_of (planned self.now) (named self.now) }
        ensures published { result ≡ objective (planned self.now) (selection_of (planned self.now) (named self.now)) }
    {
        self.modules_power() + self.shifters_power()
    }
}
