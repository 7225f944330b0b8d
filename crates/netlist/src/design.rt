// A design, whose ghost fields say that it keeps the rules and has room for its full size.
ghost use Rattle.std.specs.Prelude.{◌≡◌, ◌≤◌, true, vec_capacity};
ghost use Rattle.netlist.specs.Netlist.{lawful, netlist};

use crate::indexed::IndexedNets;
use crate::parts::{Menu, Supplies, Terms};

pub mod draft;
mod views;

#[derive(Drop)]
pub struct Design {
    terms: Terms,
    supplies: Supplies,
    menus: Vec<Menu>,
    nets: IndexedNets,
    ghost room: { 64 ≤ vec_capacity menus },
    ghost ok: { lawful (netlist terms supplies menus.items nets) ≡ true },
}
