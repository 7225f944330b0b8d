// Why a call is turned away.
ghost use Rattle.std.specs.Prelude.{◌≡◌, Some};
ghost use Rattle.netlist.specs.Refusals.{number, reason};

use std::error::Error;
use std::fmt;

// Each refusal has a number; where several apply, a call gives the lowest.
#[derive(Clone, Copy, PartialEq, Eq, Debug)]
pub enum Refusal {
    EndsEarly = 1,
    BytesFollow = 2,
    WrongMap = 3,
    AbsentValue = 4,
    Limit = 5,
    Order = 6,
    WrongMenu = 7,
    WrongEnds = 8,
    TableFull = 21,
    ShortBuffer = 24,
    LateSupply = 25,
}

impl Refusal {
    pub fn number(self) -> u32
        ensures { result ≡ number self }
    {
        self as u32
    }
}

impl fmt::Display for Refusal {
    ghost output = { λ refusal. Some (reason refusal) };

    fn fmt<W: fmt::Write>(&self, f: &mut fmt::Formatter<W>) -> fmt::Result {
        f.write_str(match self {
            Refusal::EndsEarly => "the record ends early",
            Refusal::BytesFollow => "bytes follow the record's end",
            Refusal::WrongMap => "the map has a forbidden bit or lacks a required one",
            Refusal::AbsentValue =>
                "an optional field is present and holds the value that its absence means",
            Refusal::Limit => "a number is beyond its limits",
            Refusal::Order => "supplies, delays or powers are out of order",
            Refusal::WrongMenu => "the menu is empty or names a missing supply",
            Refusal::WrongEnds =>
                "an end of the net is missing, or its driver is not below its receiver",
            Refusal::TableFull => "the table of modules or nets is full",
            Refusal::ShortBuffer => "the buffer is too short",
            Refusal::LateSupply => "a supply is added once modules exist",
        })
    }
}

impl Error for Refusal {}
