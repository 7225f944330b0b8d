// The draft of the tables, by the calls of a draft.
use crate::tables::{Menu, Tables};
use netlist::design::draft::Draft;
use netlist::parts::Choice;
use netlist::refusal::Refusal;

pub(crate) fn build(tables: &Tables, draft: &mut Draft) -> Result<(), Refusal> {
    draft.clear();
    let terms = tables.terms;
    draft.terms(terms.cycle, terms.shifter.delay, terms.shifter.power)?;
    tables.supplies.iter().try_for_each(|(number, voltage)| draft.supply(
        u32::from(*number),
        *voltage,
    ))?;
    tables
        .modules
        .iter()
        .try_for_each(|menu| add_module(draft, menu))?;
    tables.nets.iter().try_for_each(|net| {
        let driver = u32::from(net.ends.driver);
        let receiver = u32::from(net.ends.receiver);
        draft.net(driver, receiver, net.wire)
    })
}

fn add_module(draft: &mut Draft, menu: &Menu) -> Result<(), Refusal> {
    let mut map: u8 = 0;
    // What stands beside the menu is not to be read.
    let mut choices = [Choice {
        delay: 7,
        power: 7_000_000,
    }; 8];
    for (supply, choice) in menu {
        if let Some(place) = choices.get_mut(usize::from(*supply)) {
            *place = *choice;
            map |= 1 << *supply;
        }
    }
    draft.module(map, &choices)
}
