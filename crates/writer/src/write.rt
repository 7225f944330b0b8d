// Writes the one record of a design.
ghost use Rattle.std.specs.Prelude.{◌≡◌, ◌+◌, ◌≤◌, ◌++◌, true, length, IfOk, Ok};
ghost use Rattle.netlist.specs.Netlist.{Netlist, lawful};
ghost use Rattle.netlist.specs.Refusals.{refused, first_broken, unless_refused};
ghost use Rattle.netlist.specs.View.{view};
ghost use Rattle.writer.specs.Pages.{HasRoom};
ghost use Rattle.record.specs.Record.{bit_unless_zero, head_bytes, record_of, reads_as};
ghost use Rattle.writer.specs.Writing.{write_rules, with_record};

use crate::entry::{Entry, put_all};
use crate::page::{Page, put_number, put_optional, weight, written};
use netlist::design::Design;
use netlist::parts::Shifter;
use netlist::refusal::Refusal;

fn head_map(shifter: Shifter, modules: u32, nets: u32) -> u8
    ensures { result ≡ 1 + bit_unless_zero 2 shifter.delay + bit_unless_zero 4 shifter.power + bit_unless_zero 8 modules + bit_unless_zero 16 nets }
{
    1 + weight(2, shifter.delay) + weight(4, shifter.power) + weight(8, modules) + weight(16, nets)
}

// The head does not speak of the supplies.
fn put_head(page: &mut Page, design: &Design)
    requires { HasRoom page.old (head_bytes (view design.now)) }
    ensures { page.new.items ≡ page.old.items ++ head_bytes (view design.now) }
{
    let terms = design.terms();
    let modules = design.menus().len() as u32;
    let nets = design.nets().len() as u32;
    page.push(head_map(terms.shifter, modules, nets));
    put_number(page, 4, terms.cycle);
    put_optional(page, 2, terms.shifter.delay);
    put_optional(page, 2, terms.shifter.power);
    put_optional(page, 1, modules);
    put_optional(page, 2, nets);
}

impl Entry for Design {
    ghost bytes = { λ design. record_of (view design) };

    fn put(&self, page: &mut Page) {
        put_head(page, self);
        self.supplies().put(page);
        put_all(page, self.menus());
        put_all(page, self.nets());
    }
}

// The record goes to the front of `out`, and its length is the answer.
#[tactic(auto, using(crate::proofs::Written::most, crate::proofs::Written::read_back, crate::proofs::Written::one_record))]
pub fn write(design: &Design, out: &mut [u8]) -> Result<usize, Refusal>
    ensures answer { refused result ≡ first_broken (write_rules (view design.now) out.old) }
    ensures length { IfOk result (λ n. n ≡ length (record_of (view design.now))) }
    ensures most { length (record_of (view design.now)) ≤ 4445 }
    ensures after { out.new ≡ unless_refused (refused result) out.old (with_record (view design.now) out.old) }
    ensures read_back { reads_as (record_of (view design.now)) ≡ Ok (view design.now) }
    ensures one_record { (other : Netlist) → lawful other ≡ true → record_of other ≡ record_of (view design.now) → other ≡ view design.now }
{
    let mut page = Page::new();
    design.put(&mut page);
    let record = written(&page);
    let n = record.len();
    if out.len() < n {
        return Err(Refusal::ShortBuffer);
    }
    out[..n].copy_from_slice(record);
    Ok(n)
}
