// The first block of a record.
use netlist::parts::Terms;

// The terms of a design, and how many modules and nets follow.
#[derive(Clone, Copy, PartialEq, Eq, Debug)]
pub struct Head {
    pub terms: Terms,
    pub modules: u32,
    pub nets: u32,
}

impl Head {
    pub const EMPTY: Head = Head {
        terms: Terms::WIDEST,
        modules: 0,
        nets: 0,
    };
}
