// Reads the blocks of a record. A reader leaves the cursor after its block.
ghost use Rattle.std.specs.Prelude.{◌≡◌, ◌+◌, ◌≤◌, IfOk, OnOk};
ghost use Rattle.record.specs.Steps.{placed};
ghost use Rattle.record.specs.Blocks.{map_byte, head_fields, head_block, net_fields, net_block, voltage_entry, supplies_fields, supplies_block};

use crate::cursor::Cursor;
use crate::entry::checked;
use crate::field::Field;
use crate::head::Head;
use faults::{BlockFault, FieldFault};
use netlist::parts::{Net, Shifter, Supplies, Terms, stands};
use netlist::refusal::Refusal;

const CYCLE: Field = Field {
    width: 4,
    high: 2_000_000,
};

// A shifter's delay, and its power.
const SHIFTER: Field = Field {
    width: 2,
    high: 10_000,
};

const MODULES: Field = Field { width: 1, high: 64 };

const NETS: Field = Field {
    width: 2,
    high: 256,
};

const WIRE: Field = Field {
    width: 2,
    high: 10_000,
};

impl Cursor<'_> {
    // The map of a block.
    pub(crate) fn map(&mut self) -> Result<u8, BlockFault>
        ensures value { result ≡ map_byte self.old.bytes.now self.old.at }
        ensures place { OnOk result (self.new.at ≡ self.old.at + 1) }
        ensures same { self.new.bytes ≡ self.old.bytes }
    {
        let at = self.at;
        if at >= self.bytes.len() {
            return Err(BlockFault::Map {
                refusal: Refusal::EndsEarly,
                at,
            });
        }
        self.at = at + 1;
        Ok(self.bytes[at])
    }

    fn head_fields(&mut self, map: u8) -> Result<Head, FieldFault>
        ensures value { placed result self.new.at ≡ head_fields self.old.bytes.now map self.old.at }
        ensures few { IfOk result (λ h. (h.modules ≤ 64) × (h.nets ≤ 256)) }
        ensures same { self.new.bytes ≡ self.old.bytes }
    {
        let cycle = self.required(CYCLE)?;
        let delay = self.optional(stands(map, 1), SHIFTER)?;
        let power = self.optional(stands(map, 2), SHIFTER)?;
        let modules = self.optional(stands(map, 3), MODULES)?;
        let nets = self.optional(stands(map, 4), NETS)?;
        let terms = Terms {
            cycle,
            shifter: Shifter { delay, power },
        };
        Ok(Head {
            terms,
            modules,
            nets,
        })
    }

    pub(crate) fn head(&mut self) -> Result<Head, BlockFault>
        ensures value { placed result self.new.at ≡ head_block self.old.bytes.now self.old.at }
        ensures few { IfOk result (λ h. (h.modules ≤ 64) × (h.nets ≤ 256)) }
        ensures same { self.new.bytes ≡ self.old.bytes }
    {
        let at = self.at;
        let map = self.map()?;
        if !stands(map, 0) || map >= 32 {
            return Err(BlockFault::Map {
                refusal: Refusal::WrongMap,
                at,
            });
        }
        Ok(self.head_fields(map)?)
    }

    fn net_fields(&mut self, modules: u32, map: u8) -> Result<Net, FieldFault>
        ensures value { placed result self.new.at ≡ net_fields modules self.old.bytes.now map self.old.at }
        ensures same { self.new.bytes ≡ self.old.bytes }
    {
        let driver = self.number(1)?;
        let at = self.at;
        let receiver = self.number(1)?;
        if driver >= receiver || receiver >= modules {
            return Err(FieldFault {
                refusal: Refusal::WrongEnds,
                at,
            });
        }
        let wire = self.optional(stands(map, 2), WIRE)?;
        Ok(Net {
            driver,
            receiver,
            wire,
        })
    }

    pub(crate) fn net(&mut self, modules: u32) -> Result<Net, BlockFault>
        ensures value { placed result self.new.at ≡ net_block modules self.old.bytes.now self.old.at }
        ensures same { self.new.bytes ≡ self.old.bytes }
    {
        let at = self.at;
        let map = self.map()?;
        if !stands(map, 0) || !stands(map, 1) || map >= 8 {
            return Err(BlockFault::Map {
                refusal: Refusal::WrongMap,
                at,
            });
        }
        Ok(self.net_fields(modules, map)?)
    }

    fn voltage(&mut self, last: Option<u32>) -> Result<u32, FieldFault>
        ensures value { result ≡ voltage_entry self.old.bytes.now last self.old.at }
        ensures place { OnOk result (self.new.at ≡ self.old.at + 2) }
        ensures same { self.new.bytes ≡ self.old.bytes }
    {
        let at = self.at;
        let voltage = self.number(2)?;
        checked(voltage, last, at)
    }

    // As many fields as bits stand in the map: each is of the lowest supply that is left.
    fn supplies_fields(&mut self, map: u8) -> Result<Supplies, FieldFault>
        ensures value { placed result self.new.at ≡ supplies_fields self.old.bytes.now map self.old.at }
        ensures same { self.new.bytes ≡ self.old.bytes }
    {
        let mut voltages = [0; 8];
        let mut last = None;
        let mut left = map;
        for _field in 0..map.count_ones() {
            let supply = left.trailing_zeros();
            let v = self.voltage(last)?;
            voltages[supply as usize] = v;
            last = Some(v);
            left &= left - 1;
        }
        Ok(Supplies {
            map,
            values: voltages,
        })
    }

    pub(crate) fn supplies(&mut self) -> Result<Supplies, BlockFault>
        ensures value { placed result self.new.at ≡ supplies_block self.old.bytes.now self.old.at }
        ensures same { self.new.bytes ≡ self.old.bytes }
    {
        let map = self.map()?;
        Ok(self.supplies_fields(map)?)
    }
}
