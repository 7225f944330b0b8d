// A value that was read into a table.
ghost use Rattle.std.specs.Prelude.{◌≡◌};
ghost use Rattle.record.specs.Blocks.{checked};

use faults::FieldFault;
use netlist::refusal::Refusal;
use netlist::slots::Slot;

// Its limits come before its order.
pub(crate) fn checked<T: Slot>(value: T, last: Option<T>, at: usize) -> Result<T, FieldFault>
    ensures { result ≡ checked T.fine T.comes_after last at value }
{
    if !value.in_limits() {
        return Err(FieldFault {
            refusal: Refusal::Limit,
            at,
        });
    }
    if !value.follows(last) {
        return Err(FieldFault {
            refusal: Refusal::Order,
            at,
        });
    }
    Ok(value)
}
