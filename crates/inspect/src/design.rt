// Shows a design.
use netlist::design::Design;
use netlist::parts::{Choice, Menu, Net, Shifter, Terms};
use std::fmt;

#[derive(Clone, Copy)]
pub struct Shown<'d>(pub &'d Design);

#[derive(Clone, Copy)]
struct ShownMenu<'m>(&'m Menu);

impl fmt::Display for Shown<'_> {
    fn fmt<W: fmt::Write>(&self, f: &mut fmt::Formatter<W>) -> fmt::Result {
        let Terms { cycle, shifter } = self.0.terms();
        let Shifter { delay, power } = shifter;
        writeln!(f, "cycle time {cycle} ps, shifter {delay} ps {power} uW")?;
        self.supplies(f)?;
        self.modules(f)?;
        self.nets(f)
    }
}

impl Shown<'_> {
    fn supplies<W: fmt::Write>(&self, f: &mut fmt::Formatter<W>) -> fmt::Result {
        let supplies = self.0.supplies();
        let count = supplies.map.count_ones();
        writeln!(f, "supplies {count}")?;
        for (supply, voltage) in supplies.standing() {
            writeln!(f, "  supply {supply}: {voltage} mV")?;
        }
        Ok(())
    }

    fn modules<W: fmt::Write>(&self, f: &mut fmt::Formatter<W>) -> fmt::Result {
        let count = self.0.menus().len();
        writeln!(f, "modules {count}")?;
        for (m, menu) in self.0.menus().iter().enumerate() {
            writeln!(f, "  module {m}:{}", ShownMenu(menu))?;
        }
        Ok(())
    }

    fn nets<W: fmt::Write>(&self, f: &mut fmt::Formatter<W>) -> fmt::Result {
        let count = self.0.nets().len();
        writeln!(f, "nets {count}")?;
        for (i, net) in self.0.nets().iter().enumerate() {
            let Net {
                driver,
                receiver,
                wire,
            } = net;
            writeln!(f, "  net {i}: {driver} -> {receiver}, wire {wire} ps")?;
        }
        Ok(())
    }
}

impl fmt::Display for ShownMenu<'_> {
    fn fmt<W: fmt::Write>(&self, f: &mut fmt::Formatter<W>) -> fmt::Result {
        let mut more = false;
        for (supply, choice) in self.0.standing() {
            if more {
                write!(f, ",")?;
            }
            let Choice { delay, power } = choice;
            write!(f, " supply {supply} {delay} ps {power} uW")?;
            more = true;
        }
        Ok(())
    }
}
