// Random designs, built and assessed, each held to the paths that its tables have.
use crate::build::build;
use crate::compare::Comparison;
use crate::draw::Drawer;
use crate::paths::{Findings, count_paths};
use crate::tables::Tables;
use crate::tally::Tally;
use anyhow::bail;
use netlist::design::draft::Draft;

const TRIALS: u32 = 4_000;

#[derive(Drop)]
pub struct Trials<'r> {
    rt: &'r HostRuntime,
    drawer: Drawer,
    draft: Draft,
    tally: Tally,
}

impl Trials<'_> {
    pub(crate) fn new(rt: &HostRuntime) -> anyhow::Result<Trials<'_>> {
        Ok(Trials {
            rt,
            drawer: Drawer::new(rt.alloc()),
            draft: Draft::new(rt.alloc())?,
            tally: Tally::default(),
        })
    }

    pub(crate) fn run(&mut self) -> anyhow::Result<()> {
        for number in 0..TRIALS {
            if let Err(error) = self.run_one() {
                println!(self.rt; "trial {number} failed")?;
                return Err(error);
            }
        }
        let tally = &self.tally;
        println!(self.rt; "{tally}")?;
        Ok(())
    }

    fn run_one(&mut self) -> anyhow::Result<()> {
        let mut tables = self.drawer.tables()?;
        let aimed = self.drawer.assignment(&tables)?;
        if let Some(findings) = count_paths(self.rt.alloc(), &tables, aimed.as_slice())? {
            tables.terms.cycle = self.drawer.cycle_near(findings.longest);
        }
        if let Err(refusal) = build(&tables, &mut self.draft) {
            println!(self.rt; "the draft answers with refusal {}", refusal.number())?;
            bail!("a draft refused the tables");
        }
        self.tally.designs.add(&tables);
        self.assigned(&tables, aimed.as_slice())?;
        self.assigned_anew(&tables)?;
        self.spoiled(&tables)
    }

    fn assigned(&mut self, tables: &Tables, bytes: &[u8]) -> anyhow::Result<()> {
        let Some(findings) = self.compare(tables, bytes)? else {
            bail!("an assignment was drawn that is none");
        };
        self.tally.assignments.add(&findings, tables.terms.cycle);
        Ok(())
    }

    fn assigned_anew(&mut self, tables: &Tables) -> anyhow::Result<()> {
        for _ in 0..3u32 {
            let bytes = self.drawer.assignment(tables)?;
            self.assigned(tables, bytes.as_slice())?;
        }
        Ok(())
    }

    fn spoiled(&mut self, tables: &Tables) -> anyhow::Result<()> {
        let (bytes, flaw) = self.drawer.spoiled(tables)?;
        if self.compare(tables, bytes.as_slice())?.is_some() {
            bail!("spoiled bytes are still an assignment");
        }
        self.tally.flaws.add(flaw);
        Ok(())
    }

    fn compare(&self, tables: &Tables, bytes: &[u8]) -> anyhow::Result<Option<Findings>> {
        let comparison = Comparison {
            rt: self.rt,
            tables,
            design: self.draft.design(),
            bytes,
        };
        comparison.agreed()
    }
}
