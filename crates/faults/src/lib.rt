// Where a record is refused, and why: a field's fault is carried whole inside its block's, and that inside the record's.
#![tactic(auto)]

ghost use Rattle.std.specs.Prelude.{◌≡◌, Some};
ghost use Rattle.faults.specs.Faults.{block_refusal, block_place, refusal_of, block_of, place_of, text};
ghost use Rattle.faults.specs.declared.BlockFault.TheVariants.{Field};
ghost use Rattle.faults.specs.declared.RecordFault.TheVariants.{Block};

use netlist::refusal::Refusal;
use std::error::Error;
use std::fmt;

// `at` is the field's first byte, counted from the start of the record.
#[derive(Clone, Copy, PartialEq, Eq, Debug)]
pub struct FieldFault {
    pub refusal: Refusal,
    pub at: usize,
}

#[derive(Clone, Copy, PartialEq, Eq, Debug)]
pub enum BlockFault {
    Map { refusal: Refusal, at: usize },
    Field(FieldFault),
}

#[derive(Clone, Copy, PartialEq, Eq, Debug)]
pub enum RecordFault {
    Block { block: usize, fault: BlockFault },
    BytesFollow { block: usize, at: usize },
}

impl BlockFault {
    pub fn refusal(self) -> Refusal
        ensures { result ≡ block_refusal self }
    {
        match self {
            BlockFault::Map { refusal, .. } => refusal,
            BlockFault::Field(field) => field.refusal,
        }
    }

    // The first byte of the map or field.
    pub fn at(self) -> usize
        ensures { result ≡ block_place self }
    {
        match self {
            BlockFault::Map { at, .. } => at,
            BlockFault::Field(field) => field.at,
        }
    }
}

impl RecordFault {
    pub fn refusal(self) -> Refusal
        ensures { result ≡ refusal_of self }
    {
        match self {
            RecordFault::Block { fault, .. } => fault.refusal(),
            RecordFault::BytesFollow { .. } => Refusal::BytesFollow,
        }
    }

    pub fn block(self) -> usize
        ensures { result ≡ block_of self }
    {
        match self {
            RecordFault::Block { block, .. } | RecordFault::BytesFollow { block, .. } => block,
        }
    }

    // The first byte of the map or field, or of what follows the end.
    pub fn at(self) -> usize
        ensures { result ≡ place_of self }
    {
        match self {
            RecordFault::Block { fault, .. } => fault.at(),
            RecordFault::BytesFollow { at, .. } => at,
        }
    }
}

impl From<FieldFault> for BlockFault {
    ghost from_gives = { λ e r. r ≡ Field e };

    fn from(e: FieldFault) -> BlockFault {
        BlockFault::Field(e)
    }
}

impl From<(usize, BlockFault)> for RecordFault {
    ghost from_gives = { λ e r. r ≡ Block e.0 e.1 };

    fn from(e: (usize, BlockFault)) -> RecordFault {
        RecordFault::Block {
            block: e.0,
            fault: e.1,
        }
    }
}

// The number, the place and the reason.
impl fmt::Display for RecordFault {
    ghost output = { λ fault. Some (text fault) };

    fn fmt<W: fmt::Write>(&self, f: &mut fmt::Formatter<W>) -> fmt::Result {
        let refusal = self.refusal();
        let number = refusal.number();
        let block = self.block();
        let at = self.at();
        write!(f, "{number} in block {block} at byte {at}: {refusal}")
    }
}

impl Error for RecordFault {}
