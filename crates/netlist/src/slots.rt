// Tables with a place for each of eight supplies.
ghost use Rattle.std.specs.Prelude.{◌≡◌, ◌*◌, ◌^◌, ◌<◌, Bool, Option, None};
ghost use Rattle.std.specs.Iterator.{YieldsFirst, item_count};
ghost use Rattle.std.specs.Mem.{type_size};
ghost use Rattle.std.specs.List.{list_all};
ghost use Rattle.netlist.specs.Slots.{used, standing};
ghost use Rattle.netlist.specs.Netlist.{in_order};
ghost use Rattle.netlist.specs.Standing.{left};

use self::standing::Standing;

pub mod standing;

// What may stand in a place of a table, and how it goes with the value at the last place before it that is used.
pub trait Slot: Copy {
    ghost fine: { Self → Bool };

    ghost comes_after: { Option Self → Self → Bool };

    fn in_limits(&self) -> bool
        ensures { result ≡ fine self.now };

    fn follows(&self, last: Option<Self>) -> bool
        ensures { result ≡ comes_after last self.now };

    // Eight of them fit in memory.
    ghost small: { 8 * type_size Self.row < 2 ^ 63 };
}

// Bit i of the map says whether place i is used: the form that a record has, and that needs no memory of its own.
#[derive(Clone, Copy, PartialEq, Eq, Debug)]
pub struct Slots<T> {
    pub map: u8,
    pub values: [T; 8],
}

impl<T: Slot> Slots<T> {
    // The places that are used, lowest first, each with its value.
    pub fn standing(&self) -> Standing<'_, T>
        ensures { left result ≡ used self.now.map 0 self.now.values }
    {
        Standing {
            map: self.map,
            values: &self.values,
        }
    }

    pub(crate) fn in_limits(&self) -> bool
        ensures { result ≡ list_all T.fine (standing self.now.map 0 self.now.values) }
    {
        self.standing().all(|(_, value)| value.in_limits())
    }

    // Each value follows the one before it.
    pub(crate) fn in_order(&self) -> bool
        ensures { result ≡ in_order T.comes_after None (standing self.now.map 0 self.now.values) }
    {
        let mut last = None;
        for (_, value) in self.standing() {
            if !value.follows(last) {
                return false;
            }
            last = Some(value);
        }
        true
    }
}

impl<'a, T: Copy> Iterator for Standing<'a, T> {
    type Item = (u32, T);

    ghost next_gives = { YieldsFirst left };

    ghost remaining = { item_count left };

    fn next(&mut self) -> Option<(u32, T)> {
        if self.map == 0 {
            return None;
        }
        let place = self.map.trailing_zeros();
        let values = self.values;
        self.map &= self.map - 1;
        Some((place, values[place as usize]))
    }
}
