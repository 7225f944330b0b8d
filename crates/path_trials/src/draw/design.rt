// Tables drawn at random, within the rules of a design.
use super::Drawer;
use crate::random::Random;
use crate::tables::{Ends, Menu, Net, Tables};
use netlist::parts::{Choice, Shifter, Terms};
use std::alloc::AllocError;
use std::collections::BTreeMap;

// How large the numbers of one design are: small ones often tie, large ones come near their limits.
#[derive(Clone, Copy)]
struct Scale {
    delay: u32,
    power: u32,
}

impl Random {
    fn scale(&mut self) -> Scale {
        Scale {
            delay: if self.one_in(3) { 100 } else { 1 },
            power: if self.one_in(3) { 1_000 } else { 1 },
        }
    }

    // The cycle is left wide.
    fn terms(&mut self, scale: Scale) -> Terms {
        let delay = self.between(1, 30).saturating_mul(scale.delay);
        let power = self.between(1, 10).saturating_mul(scale.power);
        let shifter = Shifter {
            delay: if self.one_in(4) { 0 } else { delay },
            power: if self.one_in(4) { 0 } else { power },
        };
        Terms {
            shifter,
            ..Terms::WIDEST
        }
    }

    // Often to the next module, for long paths.
    fn ends(&mut self, modules: u8) -> Ends {
        let driver = self.byte(0, modules.saturating_sub(2));
        let next = driver.saturating_add(1);
        let receiver = if self.one_in(2) {
            next
        } else {
            self.byte(next, modules.saturating_sub(1))
        };
        Ends { driver, receiver }
    }
}

impl Drawer {
    pub(crate) fn tables(&mut self) -> Result<Tables, AllocError> {
        let heap = self.heap;
        let scale = self.random.scale();
        let terms = self.random.terms(scale);
        let supplies = self.supplies()?;
        let count = self.random.byte(0, 7);
        let modules = (0..count)
            .map(|_| self.menu(&supplies, scale))
            .try_collect(heap)?;
        let nets = self.nets(count, scale)?;
        Ok(Tables {
            terms,
            supplies,
            modules,
            nets,
        })
    }

    // One to four supplies, some numbers left out; each voltage leaves room for those that may come below it.
    fn supplies(&mut self) -> Result<BTreeMap<u8, u32>, AllocError> {
        let mut supplies = BTreeMap::new(self.heap);
        let first = self.random.byte(0, 7);
        let mut floor: u32 = 303;
        let mut top: u32 = 5_000;
        for number in first..8u8 {
            let wanted = number == first || self.random.one_in(2);
            if wanted && floor >= 300 {
                let voltage = self.random.between(floor, top);
                supplies.insert(number, voltage)?;
                floor = floor.saturating_sub(1);
                top = voltage.saturating_sub(1);
            }
        }
        Ok(supplies)
    }

    // At least one of the supplies, ever slower and thriftier.
    fn menu(&mut self, supplies: &BTreeMap<u8, u32>, scale: Scale) -> Result<Menu, AllocError> {
        let mut menu = BTreeMap::new(self.heap);
        let sure = self.random.place(supplies.len());
        let mut delay = self.random.between(1, 25);
        let mut power = self.random.between(400, 1_000);
        for (i, supply) in supplies.keys().enumerate() {
            if i == sure || self.random.one_in(2) {
                let choice = Choice {
                    delay: delay.saturating_mul(scale.delay),
                    power: power.saturating_mul(scale.power),
                };
                menu.insert(*supply, choice)?;
                delay = delay.saturating_add(self.random.between(1, 25));
                power = power.saturating_sub(self.random.between(1, 125));
            }
        }
        Ok(menu)
    }

    // Up to twelve nets, their ends in no order, and now and then one parallel to the net before it.
    fn nets(&mut self, modules: u8, scale: Scale) -> Result<Vec<Net>, AllocError> {
        let mut nets: Vec<Net> = Vec::new(self.heap);
        if modules < 2 {
            return Ok(nets);
        }
        for _ in 0..self.random.between(0, 12) {
            let wire = self.random.between(0, 20).saturating_mul(scale.delay);
            let ends = match nets.last() {
                Some(before) if self.random.one_in(8) => before.ends,
                _ => self.random.ends(modules),
            };
            nets.push(Net { ends, wire })?;
        }
        Ok(nets)
    }
}
