// The critical path of an assignment: a longest one, traced back from its end.
ghost use Rattle.std.specs.Prelude.{◌≡◌, ◌+◌, ◌-◌, ◌<◌, max, [], ◌++◌, length, replicate, is_some, IfSome, fold, MatchOption, ◌==◌, nat_lt, slice_index};
ghost use Rattle.netlist.specs.FanIn.{fan_in};
ghost use Rattle.netlist.specs.Netlist.{modules};
ghost use Rattle.timing.specs.Arrivals.{latest, over_net, Into, Longest};
ghost use Rattle.timing.specs.Paths.{timed, module_delay, PathTo, path_delay};
ghost use Rattle.timing.specs.View.{planned, named};
ghost use Rattle.critical.specs.Steps.{steps, ComesOver};

use super::CriticalPath;
use timing::assignment::Assignment;

impl CriticalPath {
    // The module at which it ends.
    pub fn end(&self) -> u32
        ensures { result ≡ self.now.end }
    {
        self.end
    }

    // The numbers of its nets, the last one first.
    pub fn nets(&self) -> &[u32]
        ensures { result.now ≡ steps self.now }
    {
        &self.nets[0..self.count]
    }
}

// An assignment and its latest arrivals, along which paths are traced back.
#[derive(Drop)]
struct Tracer<'a, 'd, 's> {
    assignment: &'a Assignment<'d, 's>,
    arrivals: &'a [u32; 64],
    ghost known: { arrivals.now ≡ latest (planned assignment.now) (named assignment.now) ++ replicate (64 - modules (planned assignment.now)) 0 },
}

impl Tracer<'_, '_, '_> {
    // Whether the arrival at a module is the one over this net.
    fn comes_over(&self, m: u32, i: u32) -> bool
        requires { Into (planned self.now.assignment.now) m i }
        ensures { result ≡ (over_net (timed (planned self.now.assignment.now) (named self.now.assignment.now)) self.now.arrivals.now i + module_delay (planned self.now.assignment.now) (named self.now.assignment.now) m == slice_index self.now.arrivals.now m) }
    {
        let driver = self.assignment.design().nets()[i as usize].driver;
        let before = u64::from(self.arrivals[driver as usize]);
        let over = before + u64::from(self.assignment.net_delay(i));
        over + u64::from(self.assignment.choice(m).delay) == u64::from(self.arrivals[m as usize])
    }

    // The net over which the arrival at a module comes; none where no net leads to it.
    fn last_net(&self, m: u32) -> Option<u32>
        requires { m < modules (planned self.now.assignment.now) }
        ensures { MatchOption result (fan_in (planned self.now.assignment.now) m ≡ []) (ComesOver (planned self.now.assignment.now) (named self.now.assignment.now) self.now.arrivals.now m) }
    {
        let nets = self.assignment.design().fan_in(m);
        nets.iter().copied().find(
            |i|
                requires { Into (planned self.now.assignment.now) m i.now }
            { self.comes_over(m, *i) },
        )
    }

    // The path back from a module, net by net, along which its arrival came. The count is the length of the path so far.
    fn trace(&self, end: u32) -> CriticalPath
        requires { end < modules (planned self.now.assignment.now) }
        ensures end { result.end ≡ end }
        ensures path { PathTo (timed (planned self.now.assignment.now) (named self.now.assignment.now)) end (steps result) }
        ensures delay { path_delay (timed (planned self.now.assignment.now) (named self.now.assignment.now)) end (steps result) ≡ slice_index self.now.arrivals.now end }
    {
        let mut nets = [0u32; 64];
        let mut count: usize = 0;
        let mut at = end;
        while let Some(i) = self.last_net(at) {
            nets[count] = i;
            count += 1;
            at = self.assignment.design().nets()[i as usize].driver;
        }
        CriticalPath { end, nets, count }
    }
}

// The module with the greatest arrival, the first of several; none where there are no modules.
fn latest_module(arrivals: &[u32]) -> Option<usize>
    ensures { MatchOption result (length arrivals.now ≡ 0) (λ m. (m < length arrivals.now) × (slice_index arrivals.now m ≡ fold max 0 arrivals.now)) }
{
    let greatest = arrivals.iter().copied().max()?;
    arrivals.iter().position(|t| *t == greatest)
}

// A longest path of an assignment; none where there are no modules. Which of several is open.
pub fn critical_path(assignment: &Assignment<'_, '_>) -> Option<CriticalPath>
    ensures some { is_some result ≡ nat_lt 0 (modules (planned assignment.now)) }
    ensures path { IfSome result (λ p. PathTo (timed (planned assignment.now) (named assignment.now)) p.end (steps p)) }
    ensures longest { IfSome result (λ p. Longest (timed (planned assignment.now) (named assignment.now)) (path_delay (timed (planned assignment.now) (named assignment.now)) p.end (steps p))) }
{
    let modules = assignment.design().menus().len();
    if modules == 0 {
        return None;
    }
    let arrivals = assignment.arrivals();
    let end = latest_module(&arrivals[0..modules])?;
    let tracer = Tracer {
        assignment,
        arrivals: &arrivals,
    };
    Some(tracer.trace(end as u32))
}
