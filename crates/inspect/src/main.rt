// Checks the netlist record in its folder and prints the design, or where and why the record is refused. Where there
// is a file of choices too, it prints what that assignment costs and how long its critical path takes.
#![tactic(auto)]

mod design;
mod report;

use design::Shown;
use netlist::design::draft::Draft;
use record::read::read;
use report::report;
use std::fs;
use std::rt::Files;

fn main(rt: HostRuntime) -> anyhow::Result<()> {
    inspect(&rt)
}

fn inspect(rt: &(impl Files + Print + AllocGlobal)) -> anyhow::Result<()> {
    // An unreadable file is an empty record.
    let bytes = fs::read(rt, "netlist.rec").unwrap_or_else(|_| Vec::new(rt.alloc()));
    let mut draft = Draft::new(rt.alloc())?;
    match read(bytes.as_slice(), &mut draft) {
        Ok(()) => {
            println!(rt; "record accepted, {} bytes", bytes.len())?;
            print!(rt; "{}", Shown(draft.design()))?;
            report(rt, draft.design())
        }
        Err(fault) => Ok(println!(rt; "record refused {fault}")?),
    }
}
