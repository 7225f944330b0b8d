// The delays that a walk over the nets of a design adds up, each small enough that no sum over a path overflows.
ghost use Rattle.std.specs.Prelude.{◌≡◌, ℕ, ◌≤◌};
ghost use Rattle.timing.specs.Paths.{Model};

pub trait DelayModel {
    ghost model: { Self → Model };

    // What a path begins with at a module.
    fn start(&self, at: u32) -> u32
        ensures value { result ≡ (model self.now).start at }
        ensures bound { result ≤ 10000 };

    fn at_module(&self, at: u32) -> u32
        ensures value { result ≡ (model self.now).at_module at }
        ensures bound { result ≤ 10000 };

    fn on_net(&self, along: u32) -> u32
        ensures value { result ≡ (model self.now).on_net along }
        ensures bound { result ≤ 20000 };
}
