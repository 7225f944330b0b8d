// Assignments drawn at random, and ways to spoil them.
use super::Drawer;
use crate::tables::{Menu, Tables};
use std::alloc::AllocError;

// Why bytes are no assignment.
#[derive(Clone, Copy, PartialEq, Eq, Debug)]
pub enum Flaw {
    TooShort,
    TooLong,
    OffMenu,
    AboveSeven,
}

const FLAWS: [Flaw; 4] = [
    Flaw::TooShort,
    Flaw::TooLong,
    Flaw::OffMenu,
    Flaw::AboveSeven,
];

impl Drawer {
    // A supply of its menu for each module.
    pub(crate) fn assignment(&mut self, tables: &Tables) -> Result<Vec<u8>, AllocError> {
        let random = &mut self.random;
        tables
            .modules
            .iter()
            .filter_map(|menu| menu.keys().nth(random.place(menu.len())).copied())
            .collect(self.heap)
    }

    // Bytes that are an assignment but for one flaw.
    pub(crate) fn spoiled(&mut self, tables: &Tables) -> Result<(Vec<u8>, Flaw), AllocError> {
        let mut bytes = self.assignment(tables)?;
        let flaw = self.flaw(tables);
        self.spoil(tables, &mut bytes, flaw)?;
        Ok((bytes, flaw))
    }

    // Where there are no modules, only bytes too many are wrong.
    fn flaw(&mut self, tables: &Tables) -> Flaw {
        if tables.modules.is_empty() {
            return Flaw::TooLong;
        }
        FLAWS[self.random.between(0, 3) as usize]
    }

    fn spoil(
        &mut self,
        tables: &Tables,
        bytes: &mut Vec<u8>,
        flaw: Flaw,
    ) -> Result<(), AllocError> {
        let place = self.random.place(bytes.len());
        match flaw {
            Flaw::TooShort => {
                let _ = bytes.pop();
            }
            Flaw::TooLong => bytes.push(self.random.byte(0, 7))?,
            Flaw::OffMenu => {
                if let Some(byte) = bytes.get_mut(place)
                    && let Some(menu) = tables.modules.get(place)
                {
                    *byte = self.off_menu(menu);
                }
            }
            Flaw::AboveSeven => {
                if let Some(byte) = bytes.get_mut(place) {
                    *byte = self.random.byte(8, 255);
                }
            }
        }
        Ok(())
    }

    // A supply number that is not on the menu: the next one from a random number on. No menu has all eight.
    fn off_menu(&mut self, menu: &Menu) -> u8 {
        let from = self.random.byte(0, 7);
        (0..8u8)
            .map(|i| from.wrapping_add(i) % 8)
            .find(|number| !menu.contains_key(number))
            .unwrap_or(8)
    }
}
