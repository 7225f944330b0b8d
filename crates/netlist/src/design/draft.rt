// A draft: a design while it is built. Only making one can want memory.
ghost use Rattle.std.specs.Prelude.{◌≡◌, true, IfOk};
ghost use Rattle.netlist.specs.Calls.{terms_rules, with_terms, supply_rules, with_supply, module_rules, with_module, net_rules, with_net};
ghost use Rattle.netlist.specs.Meaning.{SameMeaning};
ghost use Rattle.netlist.specs.Netlist.{Netlist, blank, lawful};
ghost use Rattle.netlist.specs.Refusals.{refused, first_broken, unless_refused};
ghost use Rattle.netlist.specs.Rules.{Rules};
ghost use Rattle.netlist.specs.View.{drawn};

use super::Design;
use crate::indexed::IndexedNets;
use crate::parts::{Choice, Menu, Net, Shifter, Supplies, Terms, voltage_in_limits};
use crate::refusal::Refusal;
use std::alloc::{AllocError, Global};

#[derive(Drop)]
pub struct Draft {
    design: Design,
}

impl Draft {
    // An empty draft, with memory for the largest design.
    pub fn new(heap: Global) -> Result<Draft, AllocError>
        ensures { IfOk result (λ d. drawn d ≡ blank) }
    {
        let design = Design {
            terms: Terms::WIDEST,
            supplies: Supplies::NONE,
            menus: Vec::with_capacity(heap, 64)?,
            nets: IndexedNets::new(heap)?,
        };
        Ok(Draft { design })
    }

    // Back to an empty draft, in the same memory.
    pub fn clear(&mut self)
        ensures { drawn self.new ≡ blank }
    {
        self.design.nets.clear();
        self.design.menus.clear();
        self.design.supplies = Supplies::NONE;
        self.design.terms = Terms::WIDEST;
    }

    pub fn terms(
        &mut self,
        cycle: u32,
        shifter_delay: u32,
        shifter_power: u32,
    ) -> Result<(), Refusal>
        ensures answer { refused result ≡ first_broken (terms_rules cycle shifter_delay shifter_power) }
        ensures after { drawn self.new ≡ unless_refused (refused result) (drawn self.old) (with_terms (drawn self.old) cycle shifter_delay shifter_power) }
    {
        let terms = Terms {
            cycle,
            shifter: Shifter {
                delay: shifter_delay,
                power: shifter_power,
            },
        };
        if !terms.in_limits() {
            return Err(Refusal::Limit);
        }
        self.design.terms = terms;
        Ok(())
    }

    // One supply more: numbers rise, voltages fall, and all supplies come before the modules.
    pub fn supply(&mut self, number: u32, voltage: u32) -> Result<(), Refusal>
        ensures answer { refused result ≡ first_broken (supply_rules (drawn self.old) number voltage) }
        ensures after { drawn self.new ≡ unless_refused (refused result) (drawn self.old) (with_supply (drawn self.old) number voltage) }
    {
        if number > 7 || !voltage_in_limits(voltage) {
            return Err(Refusal::Limit);
        }
        if self.design.supplies.map >> number != 0 || !self.design.supplies.all_above(voltage) {
            return Err(Refusal::Order);
        }
        if self.design.menus.len() > 0 {
            return Err(Refusal::LateSupply);
        }
        let mut supplies = self.design.supplies;
        supplies.map += 1 << number;
        supplies.values[number as usize] = voltage;
        self.design.supplies = supplies;
        Ok(())
    }

    // One module more, with a menu of the choices at the bits of `map`.
    pub fn module(&mut self, map: u8, choices: &[Choice; 8]) -> Result<(), Refusal>
        ensures answer { refused result ≡ first_broken (module_rules (drawn self.old) map choices.now) }
        ensures after { drawn self.new ≡ unless_refused (refused result) (drawn self.old) (with_module (drawn self.old) map choices.now) }
    {
        let menu = Menu {
            map,
            values: *choices,
        };
        if !menu.in_limits() {
            return Err(Refusal::Limit);
        }
        if !menu.in_order() {
            return Err(Refusal::Order);
        }
        if map == 0 || map & self.design.supplies.map != map {
            return Err(Refusal::WrongMenu);
        }
        if self.design.menus.len() >= 64 {
            return Err(Refusal::TableFull);
        }
        self.design.menus.push_reserved(menu.trimmed());
        Ok(())
    }

    // One net more.
    pub fn net(&mut self, driver: u32, receiver: u32, wire: u32) -> Result<(), Refusal>
        ensures answer { refused result ≡ first_broken (net_rules (drawn self.old) driver receiver wire) }
        ensures after { drawn self.new ≡ unless_refused (refused result) (drawn self.old) (with_net (drawn self.old) driver receiver wire) }
    {
        if wire > 10_000 {
            return Err(Refusal::Limit);
        }
        if driver >= receiver || receiver as usize >= self.design.menus.len() {
            return Err(Refusal::WrongEnds);
        }
        if self.design.nets.len() >= 256 {
            return Err(Refusal::TableFull);
        }
        let net = Net {
            driver,
            receiver,
            wire,
        };
        self.design.nets.push(net);
        Ok(())
    }

    // The design so far. It keeps the rules at all times, and holds nothing beyond its meaning.
    pub fn design(&self) -> &Design
        ensures same { result.now ≡ self.now.design }
        ensures rules { Rules (drawn self.now) }
        ensures plain { (other : Netlist) → lawful other ≡ true → SameMeaning (drawn self.now) other → drawn self.now ≡ other }
    {
        &self.design
    }
}
