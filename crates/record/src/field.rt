// Reads the fields of a record. A reader leaves the cursor after its field; where the field is refused, the place of the
// cursor says nothing.
ghost use Rattle.std.specs.Prelude.{◌≡◌, ◌+◌, ◌<◌, ◌≤◌, IfOk, OnOk};
ghost use Rattle.record.specs.Fields.{field as number_at, limited, required, optional};
ghost use Rattle.record.specs.Steps.{placed};

use crate::cursor::Cursor;
use faults::FieldFault;
use netlist::refusal::Refusal;

// How many bytes a field has, and the highest number that it may hold; the lowest is 1.
#[derive(Clone, Copy)]
pub(crate) struct Field {
    pub(crate) width: usize,
    pub(crate) high: u32,
    ghost narrow: { width ≤ 4 },
}

impl Field {
    // The number at a place, if it lies in the limits.
    fn limited(self, n: u32, at: usize) -> Result<u32, FieldFault>
        ensures value { result ≡ limited 1 self.high at n }
        ensures limit { IfOk result (λ x. x ≤ self.high) }
    {
        if !(1..=self.high).contains(&n) {
            return Err(FieldFault {
                refusal: Refusal::Limit,
                at,
            });
        }
        Ok(n)
    }
}

impl Cursor<'_> {
    // A number of at most four bytes, most significant first.
    pub(crate) fn number(&mut self, width: usize) -> Result<u32, FieldFault>
        requires { width ≤ 4 }
        ensures value { result ≡ number_at width self.old.bytes.now self.old.at }
        ensures place { OnOk result (self.new.at ≡ self.old.at + width) }
        ensures same { self.new.bytes ≡ self.old.bytes }
    {
        let at = self.at;
        let end = at + width;
        if end > self.bytes.len() {
            return Err(FieldFault {
                refusal: Refusal::EndsEarly,
                at,
            });
        }
        let mut n = 0;
        for byte in &self.bytes[at..end] {
            n = 256 * n + u32::from(*byte);
        }
        self.at = end;
        Ok(n)
    }

    pub(crate) fn required(&mut self, field: Field) -> Result<u32, FieldFault>
        ensures value { placed result self.new.at ≡ required field.width 1 field.high self.old.bytes.now self.old.at }
        ensures same { self.new.bytes ≡ self.old.bytes }
    {
        let at = self.at;
        let n = self.number(field.width)?;
        field.limited(n, at)
    }

    // A field whose absence means 0.
    pub(crate) fn optional(&mut self, present: bool, field: Field) -> Result<u32, FieldFault>
        ensures value { placed result self.new.at ≡ optional present field.width field.high self.old.bytes.now self.old.at }
        ensures limit { IfOk result (λ x. x ≤ field.high) }
        ensures same { self.new.bytes ≡ self.old.bytes }
    {
        if !present {
            return Ok(0);
        }
        let at = self.at;
        let n = self.number(field.width)?;
        if n == 0 {
            return Err(FieldFault {
                refusal: Refusal::AbsentValue,
                at,
            });
        }
        field.limited(n, at)
    }
}
