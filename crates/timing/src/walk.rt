// The walk over the nets: one pass over the modules, each from those before it.
ghost use Rattle.std.specs.Prelude.{◌≡◌, ℕ, ◌+◌, ◌-◌, ◌*◌, ◌<◌, ◌≤◌, ◌∷◌, ◌++◌, map, length, replicate, fold, slice_index, slice_set};
ghost use Rattle.netlist.specs.Netlist.{modules};
ghost use Rattle.netlist.specs.Rules.{net};
ghost use Rattle.netlist.specs.View.{view};
ghost use Rattle.std.specs.List.{AllByRecursion};
ghost use Rattle.timing.specs.Arrivals.{arrivals as arrivals_at, ready as ready_at, done, over_net, Arrives, Into, InReach};
ghost use Rattle.timing.specs.Paths.{timed_by};

use crate::delays::DelayModel;
use crate::way::Way;
use netlist::design::Design;

// A walk that stands before a module: the arrivals at the modules below it are known.
#[derive(Drop)]
struct Walker<'a, D> {
    design: &'a Design,
    delays: &'a D,
    at: u32,
    known: [u32; 64],
    ghost reach: { InReach at known },
}

impl<D: DelayModel> Walker<'_, D> {
    // The arrival over a net: when its driver is done, and then along it.
    fn over_net(&self, i: u32) -> u32
        requires { Into (view self.now.design.now) self.now.at i }
        ensures value { result ≡ over_net (timed_by (view self.now.design.now) (D.DelayModel.model self.now.delays.now)) self.now.known i }
        ensures bound { result ≤ 40000 * self.now.at + 20000 }
    {
        let driver = self.design.nets()[i as usize].driver;
        self.known[driver as usize] + self.delays.on_net(i)
    }

    // What is kept of the arrivals over several nets.
    fn keep_over<W: Way>(&self, first: u32, rest: &[u32]) -> u32
        requires { AllByRecursion (Into (view self.now.design.now) self.now.at) (first ∷ rest.now) }
        ensures value { let over = over_net (timed_by (view self.now.design.now) (D.DelayModel.model self.now.delays.now)) self.now.known in result ≡ fold W.Way.keeps (over first) (map over rest.now) }
        ensures bound { result ≤ 40000 * self.now.at + 20000 }
    {
        rest.iter().fold(
            self.over_net(first),
            |arrival, i|
                requires { Into (view self.now.design.now) self.now.at i.now }
            { W::keep(arrival, self.over_net(*i)) },
        )
    }

    // When the module may begin: what is kept of the arrivals over its nets, or its start where there are none.
    fn ready<W: Way>(&self) -> u32
        ensures value { result ≡ ready_at W.Way.keeps (timed_by (view self.now.design.now) (D.DelayModel.model self.now.delays.now)) self.now.known self.now.at }
        ensures bound { result ≤ 40000 * self.now.at + 20000 }
    {
        match self.design.fan_in(self.at) {
            [] => self.delays.start(self.at),
            [first, rest @ ..] => self.keep_over::<W>(*first, rest),
        }
    }

    // Settles the arrival at the module, and goes on to the next.
    fn settle<W: Way>(&mut self)
        requires { self.old.at < 64 }
        ensures design { self.new.design ≡ self.old.design }
        ensures delays { self.new.delays ≡ self.old.delays }
        ensures at { self.new.at ≡ self.old.at + 1 }
        ensures known { self.new.known ≡ slice_set self.old.known self.old.at (done W.Way.keeps (timed_by (view self.old.design.now) (D.DelayModel.model self.old.delays.now)) self.old.known self.old.at) }
    {
        let arrival = self.ready::<W>() + self.delays.at_module(self.at);
        self.known[self.at as usize] = arrival;
        self.at += 1;
    }
}

// The arrival at each module: what is kept of the delays of all paths from undriven modules to it; 0 behind the last.
pub fn walk<W: Way, D: DelayModel>(design: &Design, delays: &D) -> [u32; 64]
    ensures value { result ≡ arrivals_at W.Way.keeps (timed_by (view design.now) (D.DelayModel.model delays.now)) (modules (view design.now)) ++ replicate (64 - modules (view design.now)) 0 }
    ensures paths { (m : ℕ) → m < modules (view design.now) → Arrives W.Way.keeps (timed_by (view design.now) (D.DelayModel.model delays.now)) m (slice_index result m) }
{
    let mut walker = Walker {
        design,
        delays,
        at: 0,
        known: [0u32; 64],
    };
    for _ in design.menus() {
        walker.settle::<W>();
    }
    walker.known
}
