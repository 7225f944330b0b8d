// What the paths of the tables and the timing of the design say of the same bytes.
use crate::paths::{Findings, count_paths};
use crate::tables::Tables;
use anyhow::bail;
use netlist::design::Design;
use timing::assess::{Figures, assess};
use timing::assignment::Assignment;

#[derive(Drop)]
pub struct Comparison<'t> {
    pub rt: &'t HostRuntime,
    pub tables: &'t Tables,
    pub design: &'t Design,
    pub bytes: &'t [u8],
}

impl Comparison<'_> {
    // What both sides say, once they agree.
    pub(crate) fn agreed(&self) -> anyhow::Result<Option<Findings>> {
        let found = count_paths(self.rt.alloc(), self.tables, self.bytes)?;
        self.compare_figures(&found)?;
        self.compare_arrivals(&found)?;
        Ok(found)
    }

    fn compare_figures(&self, found: &Option<Findings>) -> anyhow::Result<()> {
        let counted = found.as_ref().map(|findings| Figures {
            power: findings.power,
            delay: findings.longest,
            meets: findings.longest <= self.tables.terms.cycle,
        });
        let assessed = assess(self.design, self.bytes);
        if counted != assessed {
            let bytes = self.bytes;
            println!(self.rt; "supplies {bytes:?}: counted {counted:?}, assessed {assessed:?}")?;
            bail!("the paths disagree with the assessment");
        }
        Ok(())
    }

    fn compare_arrivals(&self, found: &Option<Findings>) -> anyhow::Result<()> {
        let bytes = self.bytes;
        match (found, Assignment::of(self.design, bytes)) {
            (None, None) => Ok(()),
            (Some(findings), Some(assignment)) => {
                let counted = findings.arrivals.as_slice();
                let arrivals = assignment.arrivals();
                if same_arrivals(counted, &arrivals) {
                    return Ok(());
                }
                println!(self.rt;
                    "supplies {bytes:?}: counted {counted:?}, arrivals {arrivals:?}"
                )?;
                bail!("the paths disagree with the arrivals")
            }
            _ => {
                println!(self.rt; "supplies {bytes:?}: an assignment to one side alone")?;
                bail!("the sides disagree on what an assignment is")
            }
        }
    }
}

// Behind the last module all arrivals are 0.
fn same_arrivals(counted: &[u32], arrivals: &[u32]) -> bool {
    arrivals.iter().enumerate().all(|(m, arrival)| *arrival == counted.get(m).copied().unwrap_or(0))
}
