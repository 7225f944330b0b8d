// A reader that hands out one block of a record a call.
ghost use Rattle.std.specs.Prelude.{◌≡◌, true};
ghost use Rattle.record.specs.Stands.{sound};

use crate::head::Head;
use faults::RecordFault;
use netlist::parts::{Menu, Net, Supplies};

mod calls;

// What a call handed out.
#[derive(Clone, Copy, PartialEq, Eq, Debug)]
pub enum Kind {
    Head,
    Supplies,
    Module,
    Net,
    End,
}

// What a reader is about to read. Asked on after the end or a fault, it repeats that.
#[derive(Clone, Copy, PartialEq, Eq, Debug)]
pub enum State {
    Head,
    Supplies,
    Module(u32),
    Net(u32),
    End,
    Failed(RecordFault),
}

// The place that a caller lends: each call fills the part of its kind, and a fault leaves all as it was.
#[derive(Clone, Copy, PartialEq, Eq, Debug)]
pub struct Block {
    pub head: Head,
    pub supplies: Supplies,
    pub menu: Menu,
    pub net: Net,
}

impl Block {
    pub const BLANK: Block = Block {
        head: Head::EMPTY,
        supplies: Supplies::NONE,
        menu: Menu::NONE,
        net: Net::NONE,
    };
}

// How far a reader has come: `at` is the place of the next block, `head` and `supplies` what it has read of them.
#[derive(Clone, Copy, PartialEq, Eq, Debug)]
pub struct Stand {
    pub state: State,
    pub at: usize,
    pub head: Head,
    pub supplies: u8,
}

#[derive(Drop)]
pub struct Reader<'a> {
    bytes: &'a [u8],
    stand: Stand,
    ghost sound: { sound bytes.now stand ≡ true },
}
