// What a record is made of: an entry has its bytes, and so has a list of entries or a table of them.
ghost use Rattle.std.specs.Prelude.{◌≡◌, ◌++◌, ℕ, List};
ghost use Rattle.record.specs.Record.{all_bytes, table_bytes};
ghost use Rattle.writer.specs.Pages.{HasRoom};

use crate::page::Page;
use netlist::slots::{Slot, Slots};

// What is put on a page as its bytes.
pub(crate) trait Entry {
    ghost bytes: { Self → List ℕ };

    fn put(&self, page: &mut Page)
        requires { HasRoom page.old (bytes self.now) }
        ensures { page.new.items ≡ page.old.items ++ bytes self.now };
}

pub(crate) fn put_all<T: Entry>(page: &mut Page, entries: &[T])
    requires { HasRoom page.old (all_bytes T.bytes entries.now) }
    ensures { page.new.items ≡ page.old.items ++ all_bytes T.bytes entries.now }
{
    for entry in entries {
        entry.put(page);
    }
}

// A table is its map, and the entries at the places that are used.
impl<T: Entry + Slot> Entry for Slots<T> {
    ghost bytes = { table_bytes T.bytes };

    fn put(&self, page: &mut Page) {
        page.push(self.map);
        for (_, entry) in self.standing() {
            entry.put(page);
        }
    }
}
