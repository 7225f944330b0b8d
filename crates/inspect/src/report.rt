// Shows the power, the critical path and the slack of an assignment.
use critical::path::trace::critical_path;
use netlist::design::Design;
use std::rt::Files;
use std::{fmt, fs};
use timing::assignment::Assignment;

// The choices in their file, if there is one: a supply number for each module, with blanks or newlines between them.
pub(crate) fn report(
    rt: &(impl Files + Print + AllocGlobal),
    design: &Design,
) -> anyhow::Result<()> {
    let Ok(text) = fs::read_to_string(rt, "choices.txt") else {
        return Ok(());
    };
    let mut supplies: Vec<u8> = Vec::new(rt.alloc());
    for word in text.as_str().split_whitespace() {
        let Ok(supply) = word.parse::<u8>() else {
            println!(rt; "choices refused: {word} is not a supply number")?;
            return Ok(());
        };
        supplies.push(supply)?;
    }
    let Some(assignment) = Assignment::of(design, supplies.as_slice()) else {
        println!(rt; "choices refused: they do not name one supply of its menu for each module")?;
        return Ok(());
    };
    println!(rt; "{}", Summary(assignment))?;
    Ok(())
}

#[derive(Clone, Copy)]
struct Summary<'d, 's>(Assignment<'d, 's>);

impl fmt::Display for Summary<'_, '_> {
    fn fmt<W: fmt::Write>(&self, f: &mut fmt::Formatter<W>) -> fmt::Result {
        let power = self.0.power();
        let delay = self.0.longest_delay();
        writeln!(f, "power {power} uW")?;
        writeln!(f, "critical path {delay} ps")?;
        self.path(f)?;
        let slack = i64::from(self.0.design().terms().cycle) - i64::from(delay);
        let verb = if slack < 0 { "misses" } else { "meets" };
        write!(f, "slack {slack} ps, {verb} the cycle")
    }
}

impl Summary<'_, '_> {
    // Module by module, with the net that leads on from each.
    fn path<W: fmt::Write>(&self, f: &mut fmt::Formatter<W>) -> fmt::Result {
        let Some(path) = critical_path(&self.0) else {
            return Ok(());
        };
        for i in path.nets().iter().rev() {
            self.step(f, *i)?;
        }
        self.module(f, path.end())
    }

    // The driver of a net, and the net.
    fn step<W: fmt::Write>(&self, f: &mut fmt::Formatter<W>, i: u32) -> fmt::Result {
        let Some(net) = self.0.design().nets().get(i as usize) else {
            return Ok(());
        };
        self.module(f, net.driver)?;
        let wire = self.0.wire_delay(i);
        write!(f, "  net {i}: wire {wire} ps")?;
        if self.0.needs_shifter(i) {
            let shifter = self.0.shifter_delay(i);
            write!(f, ", shifter {shifter} ps")?;
        }
        writeln!(f)
    }

    fn module<W: fmt::Write>(&self, f: &mut fmt::Formatter<W>, module: u32) -> fmt::Result {
        let supply = self.0.supply(module);
        let delay = self.0.choice(module).delay;
        writeln!(f, "  module {module} at supply {supply}: {delay} ps")
    }
}
