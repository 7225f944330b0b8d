// What the tables say of an assignment, by a count of all its paths one by one.
use crate::tables::{Ends, Menu, Net, Tables};
use anyhow::bail;
use netlist::parts::{Choice, Shifter};
use std::alloc::{AllocError, Global};

// Far more paths than 12 nets can make.
const LIMIT: u32 = 10_000;

// A module at the supply that it is given.
#[derive(Clone, Copy)]
struct Stage {
    voltage: u32,
    choice: Choice,
}

// A net under an assignment, with its shifter where it needs one.
#[derive(Clone, Copy)]
struct Step {
    ends: Ends,
    wire: u32,
    shifter: Option<Shifter>,
}

// The tables under an assignment.
#[derive(Drop)]
struct Assigned {
    stages: Vec<Stage>,
    steps: Vec<Step>,
}

// A path so far: the module that it has come to, and its delay with that module's.
#[derive(Clone, Copy)]
struct Path {
    end: u8,
    delay: u32,
}

#[derive(Drop)]
pub struct Findings {
    pub power: u32,
    pub shifters: usize,
    pub paths: usize,
    pub longest: u32,
    // The longest delay of a path that ends at each module.
    pub arrivals: Vec<u32>,
}

// None where the bytes do not name one supply of its menu for each module.
pub(crate) fn count_paths(
    heap: Global,
    tables: &Tables,
    bytes: &[u8],
) -> anyhow::Result<Option<Findings>> {
    let Some(assigned) = tables.assigned(heap, bytes)? else {
        return Ok(None);
    };
    let mut findings = assigned.findings(heap)?;
    let mut open = assigned.one_module_paths(heap)?;
    for _ in 0..LIMIT {
        let Some(path) = open.pop() else {
            return Ok(Some(findings));
        };
        findings.note(path);
        assigned.extend(&mut open, path)?;
    }
    bail!("there are more paths than the limit")
}

impl Tables {
    fn assigned(&self, heap: Global, bytes: &[u8]) -> Result<Option<Assigned>, AllocError> {
        if bytes.len() != self.modules.len() {
            return Ok(None);
        }
        let mut stages = Vec::new(heap);
        for (menu, supply) in self.modules.iter().zip(bytes) {
            let Some(stage) = self.stage(menu, *supply) else {
                return Ok(None);
            };
            stages.push(stage)?;
        }
        let steps = self
            .nets
            .iter()
            .map(|net| self.step(net, stages.as_slice()))
            .collect(heap)?;
        Ok(Some(Assigned { stages, steps }))
    }

    fn stage(&self, menu: &Menu, supply: u8) -> Option<Stage> {
        let choice = *menu.get(&supply)?;
        let voltage = *self.supplies.get(&supply)?;
        Some(Stage { voltage, choice })
    }

    fn step(&self, net: &Net, stages: &[Stage]) -> Step {
        Step {
            ends: net.ends,
            wire: net.wire,
            shifter: climbs(net.ends, stages).then_some(self.terms.shifter),
        }
    }
}

// A shifter is needed exactly where the driver's voltage is below the receiver's.
fn climbs(ends: Ends, stages: &[Stage]) -> bool {
    let driver = stages.get(usize::from(ends.driver));
    let receiver = stages.get(usize::from(ends.receiver));
    driver
        .zip(receiver)
        .is_some_and(|(driver, receiver)| driver.voltage < receiver.voltage)
}

impl Assigned {
    // The power, and no paths yet.
    fn findings(&self, heap: Global) -> Result<Findings, AllocError> {
        let stages = self.stages.iter().map(|stage| stage.choice.power);
        let shifters = self.steps.iter().filter_map(|step| step.shifter);
        Ok(Findings {
            power: stages
                .chain(shifters.map(|shifter| shifter.power))
                .fold(0, |sum: u32, power| sum.saturating_add(power)),
            shifters: self
                .steps
                .iter()
                .filter(|step| step.shifter.is_some())
                .count(),
            paths: 0,
            longest: 0,
            arrivals: vec![in heap; 0; self.stages.len()]?,
        })
    }

    // A path may begin at any module.
    fn one_module_paths(&self, heap: Global) -> Result<Vec<Path>, AllocError> {
        (0u8..)
            .zip(self.stages.iter())
            .map(|(end, stage)| Path {
                end,
                delay: stage.choice.delay,
            })
            .collect(heap)
    }

    // Over each net from its end; parallel nets are different steps.
    fn extend(&self, open: &mut Vec<Path>, path: Path) -> Result<(), AllocError> {
        open.extend(self.steps.iter().filter_map(|step| self.over(path, step)))
    }

    fn over(&self, path: Path, step: &Step) -> Option<Path> {
        let Ends { driver, receiver } = step.ends;
        if driver != path.end {
            return None;
        }
        let stage = self.stages.get(usize::from(receiver))?;
        let shifter = step.shifter.map_or(0, |shifter| shifter.delay);
        let delay = path
            .delay
            .saturating_add(step.wire)
            .saturating_add(shifter)
            .saturating_add(stage.choice.delay);
        Some(Path {
            end: receiver,
            delay,
        })
    }
}

impl Findings {
    fn note(&mut self, path: Path) {
        self.paths = self.paths.saturating_add(1);
        self.longest = self.longest.max(path.delay);
        if let Some(arrival) = self.arrivals.get_mut(usize::from(path.end)) {
            *arrival = (*arrival).max(path.delay);
        }
    }
}
