// The designs that were built.
use super::Counter;
use crate::tables::{Net, Tables};
use netlist::parts::Shifter;
use std::collections::BTreeMap;
use std::fmt;

#[derive(Default, Drop)]
pub struct DesignTally {
    designs: Counter,
    without_modules: Counter,
    without_nets: Counter,
    instant_shifters: Counter,
    free_shifters: Counter,
    supplies: Counter,
    after_gap: Counter,
    nets: Counter,
    parallel: Counter,
    out_of_order: Counter,
}

impl DesignTally {
    pub(crate) fn add(&mut self, tables: &Tables) {
        self.designs.add(1);
        self.without_modules.add_if(tables.modules.is_empty());
        self.without_nets.add_if(tables.nets.is_empty());
        self.add_shifter(tables.terms.shifter);
        self.supplies.add(tables.supplies.len());
        self.after_gap.add(after_gap(&tables.supplies));
        self.nets.add(tables.nets.len());
        self.parallel.add(parallel(tables.nets.as_slice()));
        self.out_of_order.add(out_of_order(tables.nets.as_slice()));
    }

    fn add_shifter(&mut self, shifter: Shifter) {
        self.instant_shifters.add_if(shifter.delay == 0);
        self.free_shifters.add_if(shifter.power == 0);
    }
}

// How many supplies come after a number that is left out.
fn after_gap(supplies: &BTreeMap<u8, u32>) -> usize {
    supplies
        .keys()
        .filter(|number| {
            number
                .checked_sub(1)
                .is_some_and(|before| !supplies.contains_key(&before))
        })
        .count()
}

// How many nets are parallel to an earlier one.
fn parallel(nets: &[Net]) -> usize {
    nets.iter()
        .enumerate()
        .filter(|(i, net)| nets.iter().take(*i).any(|other| other.ends == net.ends))
        .count()
}

// How many nets lead into a lower module than the one before.
fn out_of_order(nets: &[Net]) -> usize {
    nets.iter()
        .zip(nets.iter().skip(1))
        .filter(|(before, net)| net.ends.receiver < before.ends.receiver)
        .count()
}

impl fmt::Display for DesignTally {
    fn fmt<W: fmt::Write>(&self, f: &mut fmt::Formatter<W>) -> fmt::Result {
        let DesignTally {
            designs,
            without_modules,
            without_nets,
            instant_shifters,
            free_shifters,
            supplies,
            after_gap,
            nets,
            parallel,
            out_of_order,
        } = self;
        writeln!(
            f,
            "designs {designs}: {without_modules} without modules, {without_nets} without nets"
        )?;
        writeln!(
            f,
            "designs with shifters of 0 ps {instant_shifters}, of 0 uW {free_shifters}"
        )?;
        writeln!(
            f,
            "supplies {supplies}: {after_gap} after a number left out"
        )?;
        write!(
            f,
            "nets {nets}: {parallel} parallel to an earlier one, {out_of_order} into a lower module than the last"
        )
    }
}
