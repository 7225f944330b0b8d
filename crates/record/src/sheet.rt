// A record that was read whole, before any of it goes into a draft.
use netlist::parts::{Menu, Net, Supplies, Terms};

#[derive(Clone, Copy)]
pub(crate) struct Sheet<'a> {
    pub(crate) terms: Terms,
    pub(crate) supplies: Supplies,
    pub(crate) menus: &'a [Menu],
    pub(crate) nets: &'a [Net],
}
