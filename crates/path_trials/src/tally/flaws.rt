// The bytes that were no assignment to either side.
use super::Counter;
use crate::draw::assignment::Flaw;
use std::fmt;

#[derive(Default, Drop)]
pub struct FlawTally {
    flaws: Counter,
    too_short: Counter,
    too_long: Counter,
    off_menu: Counter,
    above_seven: Counter,
}

impl FlawTally {
    pub(crate) fn add(&mut self, flaw: Flaw) {
        self.flaws.add(1);
        match flaw {
            Flaw::TooShort => self.too_short.add(1),
            Flaw::TooLong => self.too_long.add(1),
            Flaw::OffMenu => self.off_menu.add(1),
            Flaw::AboveSeven => self.above_seven.add(1),
        }
    }
}

impl fmt::Display for FlawTally {
    fn fmt<W: fmt::Write>(&self, f: &mut fmt::Formatter<W>) -> fmt::Result {
        let FlawTally {
            flaws,
            too_short,
            too_long,
            off_menu,
            above_seven,
        } = self;
        writeln!(
            f,
            "no assignment {flaws}: {too_short} too short, {too_long} too long"
        )?;
        write!(
            f,
            "  {off_menu} with a supply off a menu, {above_seven} with a byte above 7"
        )
    }
}
