// A design as plain tables, which both the draft and the paths are made from.
use netlist::parts::{Choice, Terms};
use std::collections::BTreeMap;

// What a module takes at each supply of its menu.
pub type Menu = BTreeMap<u8, Choice>;

// The modules that a net joins; parallel nets have the same.
#[derive(Clone, Copy, PartialEq, Eq, Debug)]
pub struct Ends {
    pub driver: u8,
    pub receiver: u8,
}

#[derive(Clone, Copy, PartialEq, Eq, Debug)]
pub struct Net {
    pub ends: Ends,
    pub wire: u32,
}

#[derive(Drop)]
pub struct Tables {
    pub terms: Terms,
    // Each supply's voltage.
    pub supplies: BTreeMap<u8, u32>,
    pub modules: Vec<Menu>,
    pub nets: Vec<Net>,
}
