// The parts of a design as entries of its record.
ghost use Rattle.record.specs.Fields.{spelled};
ghost use Rattle.record.specs.Record.{choice_bytes, net_bytes};

use crate::entry::Entry;
use crate::page::{Page, put_number, put_optional, weight};
use netlist::parts::{Choice, Net};

// A voltage.
impl Entry for u32 {
    ghost bytes = { spelled 2 };

    fn put(&self, page: &mut Page) {
        put_number(page, 2, *self);
    }
}

impl Entry for Choice {
    ghost bytes = { choice_bytes };

    fn put(&self, page: &mut Page) {
        put_number(page, 2, self.delay);
        put_number(page, 4, self.power);
    }
}

impl Entry for Net {
    ghost bytes = { net_bytes };

    fn put(&self, page: &mut Page) {
        page.push(3 + weight(4, self.wire));
        put_number(page, 1, self.driver);
        put_number(page, 1, self.receiver);
        put_optional(page, 2, self.wire);
    }
}
