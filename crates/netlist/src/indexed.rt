// The nets of a design and their index by receiver, which change together.
ghost use Rattle.std.specs.Prelude.{◌≡◌, ◌<◌, [], ◌∷◌, ◌++◌, length, IfOk};
ghost use Rattle.netlist.specs.FanIn.{fan_in_from};

use crate::fan_in::FanIn;
use crate::parts::Net;
use crate::table::NetTable;
use std::alloc::{AllocError, Global};
use std::marker::Model;

#[derive(Drop)]
pub struct IndexedNets {
    table: NetTable,
    fan_in: FanIn,
}

// Seen as the list of the nets: the index follows from it.
impl Model for IndexedNets {
    ghost use Rattle.std.specs.Prelude.{List};
    ghost use Rattle.netlist.specs.declared.parts.Net.{Net};
    ghost use Rattle.netlist.specs.Indexed.{Roomy, Indexed};

    ghost Value = { List Net };

    ghost view = { λ x. x.table.items.items };

    ghost invariant = { λ x. Roomy x.table x.fan_in × Indexed x.table x.fan_in };
}

impl IndexedNets {
    // No nets, with memory for the largest design.
    pub(crate) fn new(heap: Global) -> Result<IndexedNets, AllocError>
        ensures { IfOk result (λ x. x ≡ []) }
    {
        let table = NetTable {
            items: Vec::with_capacity(heap, 256)?,
        };
        Ok(IndexedNets {
            table,
            fan_in: FanIn::new(heap)?,
        })
    }

    pub(crate) fn clear(&mut self)
        ensures { self.new ≡ [] }
    {
        self.table.items.clear();
        self.fan_in.clear();
    }

    pub(crate) fn len(&self) -> usize
        ensures { result ≡ length self.now }
    {
        self.table.items.len()
    }

    pub(crate) fn push(&mut self, net: Net)
        requires below { net.receiver < 64 }
        requires few { length self.old < 256 }
        ensures { self.new ≡ self.old ++ net ∷ [] }
    {
        self.fan_in.add(self.table.items.len() as u32, net.receiver);
        self.table.items.push_reserved(net);
    }

    pub(crate) fn as_slice(&self) -> &[Net]
        ensures { result.now ≡ self.now }
    {
        self.table.items.as_slice()
    }

    // The numbers of the nets into a module, lowest first.
    pub(crate) fn fan_in(&self, module: u32) -> &[u32]
        requires { «module» < 64 }
        ensures { result.now ≡ fan_in_from «module» 0 self.now }
    {
        self.fan_in.of(module)
    }
}
