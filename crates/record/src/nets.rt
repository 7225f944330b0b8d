// Reads the nets of a record.
ghost use Rattle.std.specs.Prelude.{◌≡◌, ◌+◌, ◌^◌, ◌<◌, length};
ghost use Rattle.record.specs.Blocks.{net_block};
ghost use Rattle.record.specs.Record.{blocks};
ghost use Rattle.record.specs.Steps.{filled};

use crate::cursor::Cursor;
use faults::RecordFault;
use netlist::parts::Net;

impl Cursor<'_> {
    // Reads as many nets as there are places, the first of which is block `first`.
    pub(crate) fn nets(
        &mut self,
        modules: u32,
        first: usize,
        places: &mut [Net],
    ) -> Result<(), RecordFault>
        requires { first + length places.old < 2 ^ 64 }
        ensures value { filled result places.new self.new.at ≡ blocks (net_block modules self.old.bytes.now) (length places.old) first self.old.at }
        ensures same { self.new.bytes ≡ self.old.bytes }
    {
        for (i, place) in places.iter_mut().enumerate() {
            *place = self.net(modules).map_err(|fault| (first + i, fault))?;
        }
        Ok(())
    }
}
