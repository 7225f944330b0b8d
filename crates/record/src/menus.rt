// Reads the modules of a record: nested loops over modules and menu supplies, left at the first fault.
ghost use Rattle.std.specs.Prelude.{◌≡◌, ◌+◌, ◌^◌, ◌<◌, length, OnOk};
ghost use Rattle.record.specs.Blocks.{choice_entry, menu_map, menu_block};
ghost use Rattle.record.specs.Record.{blocks};
ghost use Rattle.record.specs.Steps.{placed, filled, inside};
ghost use Rattle.faults.specs.declared.RecordFault.TheVariants.{Block};

use crate::cursor::Cursor;
use crate::entry::checked;
use faults::{BlockFault, FieldFault, RecordFault};
use netlist::parts::{Choice, Menu};
use netlist::refusal::Refusal;

impl Cursor<'_> {
    // The map of a menu, which names at least one supply and only supplies of the design.
    fn menu_map(&mut self, supplies: u8) -> Result<u8, BlockFault>
        ensures value { result ≡ menu_map supplies self.old.bytes.now self.old.at }
        ensures place { OnOk result (self.new.at ≡ self.old.at + 1) }
        ensures same { self.new.bytes ≡ self.old.bytes }
    {
        let at = self.at;
        let map = self.map()?;
        if map == 0 || map & supplies != map {
            return Err(BlockFault::Map {
                refusal: Refusal::WrongMenu,
                at,
            });
        }
        Ok(map)
    }

    // One choice of a menu, which follows the one before it.
    fn choice(&mut self, last: Option<Choice>) -> Result<Choice, FieldFault>
        ensures value { result ≡ choice_entry self.old.bytes.now last self.old.at }
        ensures place { OnOk result (self.new.at ≡ self.old.at + 6) }
        ensures same { self.new.bytes ≡ self.old.bytes }
    {
        let at = self.at;
        if at + 6 > self.bytes.len() {
            return Err(FieldFault {
                refusal: Refusal::EndsEarly,
                at,
            });
        }
        let delay = self.number(2)?;
        let power = self.number(4)?;
        checked(Choice { delay, power }, last, at)?;
        Ok(Choice { delay, power })
    }

    // Reads as many modules as there are places, the first of which is block `first`. Both loops are left at the first
    // fault, so a menu is read in here and not by what reads other tables.
    pub(crate) fn menus(
        &mut self,
        supplies: u8,
        first: usize,
        places: &mut [Menu],
    ) -> Result<(), RecordFault>
        requires { first + length places.old < 2 ^ 64 }
        ensures value { filled result places.new self.new.at ≡ blocks (menu_block supplies self.old.bytes.now) (length places.old) first self.old.at }
        ensures same { self.new.bytes ≡ self.old.bytes }
    {
        let mut cursor = Cursor {
            bytes: self.bytes,
            at: self.at,
        };
        let read = 'modules: {
            for (m, place) in places.iter_mut().enumerate() {
                let map = match cursor.menu_map(supplies) {
                    Ok(map) => map,
                    Err(fault) => break 'modules Err((first + m, fault)),
                };
                let mut choices = [Choice::NONE; 8];
                let mut last = None;
                let mut left = map;
                for _field in 0..map.count_ones() {
                    let supply = left.trailing_zeros();
                    // Taken apart, so that a choice stays in registers from one field to the next.
                    let choice = match cursor.choice(last) {
                        Ok(Choice { delay, power }) => Choice { delay, power },
                        Err(fault) => break 'modules Err((first + m, BlockFault::from(fault))),
                    };
                    choices[supply as usize] = choice;
                    last = Some(choice);
                    left &= left - 1;
                }
                place.map = map;
                place.values = choices;
            }
            Ok(())
        };
        self.at = cursor.at;
        Ok(read?)
    }

    // One module, which is block `block`.
    pub(crate) fn menu(&mut self, supplies: u8, block: usize) -> Result<Menu, RecordFault>
        requires { block + 1 < 2 ^ 64 }
        ensures value { placed result self.new.at ≡ inside (Block block) (menu_block supplies self.old.bytes.now self.old.at) }
        ensures same { self.new.bytes ≡ self.old.bytes }
    {
        let mut one = [Menu::NONE];
        self.menus(supplies, block, &mut one)?;
        Ok(one[0])
    }
}
