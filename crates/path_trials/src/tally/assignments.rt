// The assignments on which both sides agreed.
use super::Counter;
use crate::paths::Findings;
use std::fmt;

#[derive(Default, Drop)]
pub struct AssignmentTally {
    assignments: Counter,
    shifters: Counter,
    paths: Counter,
    most_paths: usize,
    met: Counter,
    just_met: Counter,
    missed: Counter,
    just_missed: Counter,
}

impl AssignmentTally {
    pub(crate) fn add(&mut self, findings: &Findings, cycle: u32) {
        self.assignments.add(1);
        self.shifters.add(findings.shifters);
        self.paths.add(findings.paths);
        self.most_paths = self.most_paths.max(findings.paths);
        self.add_delay(findings.longest, cycle);
    }

    fn add_delay(&mut self, longest: u32, cycle: u32) {
        self.met.add_if(longest <= cycle);
        self.just_met.add_if(longest == cycle);
        self.missed.add_if(longest > cycle);
        self.just_missed.add_if(longest == cycle.saturating_add(1));
    }
}

impl fmt::Display for AssignmentTally {
    fn fmt<W: fmt::Write>(&self, f: &mut fmt::Formatter<W>) -> fmt::Result {
        let AssignmentTally {
            assignments,
            shifters,
            paths,
            most_paths,
            met,
            just_met,
            missed,
            just_missed,
        } = self;
        writeln!(f, "assignments {assignments}: {shifters} shifters needed")?;
        writeln!(f, "paths {paths}: at most {most_paths} in one design")?;
        writeln!(f, "cycle met {met}: {just_met} with nothing to spare")?;
        write!(f, "cycle missed {missed}: {just_missed} by 1 ps")
    }
}
