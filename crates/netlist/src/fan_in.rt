// The nets into each module, kept so that they are at hand without a search.
ghost use Rattle.std.specs.Prelude.{◌≡◌, ℕ, ◌+◌, ◌<◌, ◌≤◌, [], length, replicate, IfOk, if◌then◌else◌, vec_len, vec_capacity, nat_lt, slice_index, slice_index_or};
ghost use Rattle.std.specs.List.{between, insert};

use std::alloc::{AllocError, Global};

// The net numbers by receiver, and how many come before those into each module; the last entry counts all. One list for
// all modules, since nothing may allocate when a net is added.
#[derive(Drop)]
pub struct FanIn {
    pub(crate) nets: Vec<u32>,
    pub(crate) first: [u32; 65],
    ghost room: { 256 ≤ vec_capacity nets },
}

impl FanIn {
    // No nets, with memory for 256.
    pub(crate) fn new(heap: Global) -> Result<FanIn, AllocError>
        ensures { IfOk result (λ f. (f.nets.items ≡ []) × (f.first ≡ replicate 65 0)) }
    {
        Ok(FanIn {
            nets: Vec::with_capacity(heap, 256)?,
            first: [0; 65],
        })
    }

    pub(crate) fn clear(&mut self)
        ensures nets { self.new.nets.items ≡ [] }
        ensures capacity { vec_capacity self.new.nets ≡ vec_capacity self.old.nets }
        ensures first { self.new.first ≡ replicate 65 0 }
    {
        self.nets.clear();
        self.first = [0; 65];
    }

    // One net more, numbered above the others: the last into its receiver.
    pub(crate) fn add(&mut self, net: u32, receiver: u32)
        requires below { receiver < 64 }
        requires few { vec_len self.old.nets < 256 }
        requires within { (m : ℕ) → m < 65 → slice_index self.old.first m ≤ vec_len self.old.nets }
        ensures nets { self.new.nets.items ≡ insert self.old.nets.items (slice_index self.old.first (receiver + 1)) net }
        ensures capacity { vec_capacity self.new.nets ≡ vec_capacity self.old.nets }
        ensures size { length self.new.first ≡ 65 }
        ensures first { (m : ℕ) → m < 65 → slice_index self.new.first m ≡ slice_index self.old.first m + (if nat_lt receiver m then 1 else 0) }
    {
        let place = self.first[receiver as usize + 1];
        // There is room, so this wants no memory.
        let _ = self.nets.insert(place as usize, net);
        raise_above(&mut self.first, receiver);
    }

    // The nets into a module: from where they begin up to those into the next.
    pub(crate) fn of(&self, module: u32) -> &[u32]
        requires below { «module» < 64 }
        requires rising { slice_index_or self.now.first «module» 0 ≤ slice_index self.now.first («module» + 1) }
        requires within { slice_index self.now.first («module» + 1) ≤ vec_len self.now.nets }
        ensures { result.now ≡ between (slice_index_or self.now.first «module» 0) (slice_index self.now.first («module» + 1)) self.now.nets.items }
    {
        let from = self.first[module as usize];
        let to = self.first[module as usize + 1];
        &self.nets.as_slice()[from as usize..to as usize]
    }
}

// The nets into the modules above the receiver begin one place later.
fn raise_above(first: &mut [u32; 65], receiver: u32)
    requires below { receiver < 64 }
    requires small { (m : ℕ) → m < 65 → slice_index first.old m < 256 }
    ensures size { length first.new ≡ 65 }
    ensures raised { (m : ℕ) → m < 65 → slice_index first.new m ≡ slice_index first.old m + (if nat_lt receiver m then 1 else 0) }
{
    for count in &mut first[receiver as usize + 1..] {
        *count += 1;
    }
}
