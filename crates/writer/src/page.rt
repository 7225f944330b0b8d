// The page that a record is written on, and how a number is put at its end.
ghost use Rattle.std.specs.Prelude.{◌≡◌, ◌≤◌, ◌++◌, length};
ghost use Rattle.record.specs.Fields.{spelled};
ghost use Rattle.record.specs.Record.{bit_unless_zero, spelled_unless_zero};
ghost use Rattle.writer.specs.Pages.{HasRoom};

use arrayvec::ArrayVec;

// The longest record: a head of 12 bytes, supplies of 17, 64 menus of 49 and 256 nets of 5.
const MOST: usize = 4445;

pub(crate) type Page = ArrayVec<u8, MOST>;

// What stands on a page: no more than the longest record.
pub(crate) fn written(page: &Page) -> &[u8]
    ensures value { result.now ≡ page.now.items }
    ensures most { length result.now ≤ 4445 }
{
    page.as_slice()
}

// The lowest `width` bytes of `n`, most significant first.
pub(crate) fn put_number(page: &mut Page, width: usize, n: u32)
    requires width { width ≤ 4 }
    requires room { HasRoom page.old (spelled width n) }
    ensures { page.new.items ≡ page.old.items ++ spelled width n }
{
    for byte in &n.to_be_bytes()[4 - width..] {
        page.push(*byte);
    }
}

// What an optional field adds to the map of its block.
pub(crate) fn weight(value: u8, n: u32) -> u8
    ensures value { result ≡ bit_unless_zero value n }
    ensures small { result ≤ value }
{
    if n == 0 { 0 } else { value }
}

// A number that is left out where it is 0.
pub(crate) fn put_optional(page: &mut Page, width: usize, n: u32)
    requires width { width ≤ 4 }
    requires room { HasRoom page.old (spelled_unless_zero width n) }
    ensures { page.new.items ≡ page.old.items ++ spelled_unless_zero width n }
{
    if n != 0 {
        put_number(page, width, n);
    }
}
