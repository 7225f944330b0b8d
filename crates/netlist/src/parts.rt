// The plain parts of a design. Time is in picoseconds, voltage in millivolts, power in microwatts.
ghost use Rattle.std.specs.Prelude.{◌≡◌, nat_lt};
ghost use Rattle.std.specs.List.{list_all};
ghost use Rattle.netlist.specs.Slots.{bit, standing, small_voltages, small_choices};
ghost use Rattle.netlist.specs.Netlist.{terms_lawful, choice_in_limits, choice_follows, voltage_in_limits, voltage_follows};

use crate::slots::{Slot, Slots};

// Whether bit `i` of a map stands.
pub fn stands(map: u8, i: u32) -> bool
    ensures { result ≡ bit map i }
{
    i < 8 && (map >> i) % 2 == 1
}

// What every path and every shifter is held against.
#[derive(Clone, Copy, PartialEq, Eq, Debug)]
pub struct Terms {
    pub cycle: u32,
    pub shifter: Shifter,
}

// What one level shifter adds.
#[derive(Clone, Copy, PartialEq, Eq, Debug)]
pub struct Shifter {
    pub delay: u32,
    pub power: u32,
}

// The supplies of a design, each with its voltage, which is 0 where there is no supply.
pub type Supplies = Slots<u32>;

// A module's delay and power at one supply.
#[derive(Clone, Copy, PartialEq, Eq, Debug)]
pub struct Choice {
    pub delay: u32,
    pub power: u32,
}

// The supplies that a module may take, each with its choice, which is all zero where the supply is not on the menu.
pub type Menu = Slots<Choice>;

#[derive(Clone, Copy, PartialEq, Eq, Debug)]
pub struct Net {
    pub driver: u32,
    pub receiver: u32,
    pub wire: u32,
}

impl Terms {
    pub const WIDEST: Terms = Terms {
        cycle: 2_000_000,
        shifter: Shifter { delay: 0, power: 0 },
    };

    pub(crate) fn in_limits(&self) -> bool
        ensures { result ≡ terms_lawful self.now }
    {
        (1..=2_000_000).contains(&self.cycle)
            && self.shifter.delay <= 10_000
            && self.shifter.power <= 10_000
    }
}

// A voltage.
impl Slot for u32 {
    ghost fine = { voltage_in_limits };

    ghost comes_after = { voltage_follows };

    ghost small = { small_voltages };

    fn in_limits(&self) -> bool {
        voltage_in_limits(*self)
    }

    fn follows(&self, last: Option<u32>) -> bool
        ensures { result ≡ voltage_follows last self.now }
    {
        voltage_follows(last, *self)
    }
}

impl Slot for Choice {
    ghost fine = { choice_in_limits };

    ghost comes_after = { choice_follows };

    ghost small = { small_choices };

    fn in_limits(&self) -> bool {
        Choice::in_limits(self)
    }

    fn follows(&self, last: Option<Choice>) -> bool
        ensures { result ≡ choice_follows last self.now }
    {
        Choice::follows(self, last)
    }
}

impl Supplies {
    pub const NONE: Supplies = Supplies {
        map: 0,
        values: [0; 8],
    };

    pub(crate) fn all_above(&self, voltage: u32) -> bool
        ensures { result ≡ list_all (nat_lt voltage) (standing self.now.map 0 self.now.values) }
    {
        self.standing().all(|(_, other)| voltage < other)
    }
}

impl Choice {
    pub const NONE: Choice = Choice { delay: 0, power: 0 };

    pub fn in_limits(&self) -> bool
        ensures { result ≡ choice_in_limits self.now }
    {
        (1..=10_000).contains(&self.delay) && (1..=1_000_000).contains(&self.power)
    }

    // Slower and thriftier than the menu's choice before it, if there is one.
    pub fn follows(&self, last: Option<Choice>) -> bool
        ensures { result ≡ choice_follows last self.now }
    {
        last.is_none_or(|before| before.delay < self.delay && self.power < before.power)
    }
}

impl Menu {
    pub const NONE: Menu = Menu {
        map: 0,
        values: [Choice::NONE; 8],
    };
}

impl Net {
    pub const NONE: Net = Net {
        driver: 0,
        receiver: 0,
        wire: 0,
    };
}

pub fn voltage_in_limits(voltage: u32) -> bool
    ensures { result ≡ voltage_in_limits voltage }
{
    (300..=5_000).contains(&voltage)
}

// Below the supply before it, if there is one.
pub fn voltage_follows(last: Option<u32>, voltage: u32) -> bool
    ensures { result ≡ voltage_follows last voltage }
{
    last.is_none_or(|before| voltage < before)
}
