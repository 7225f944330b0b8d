// The order in which assignments are listed.
ghost use Rattle.std.specs.Prelude.{◌≡◌, IsTrue, ◌↔◌};
ghost use Rattle.timing.specs.Assignments.{Before, before};

// Whether one is listed before another: at the lowest module where they differ, it has the lower supply number.
pub fn listed_before(a: &[u8], b: &[u8]) -> bool
    ensures value { result ≡ before a.now b.now }
    ensures words { IsTrue result ↔ Before a.now b.now }
{
    let common = a.len().min(b.len());
    a[..common]
        .iter()
        .zip(&b[..common])
        .find(|(x, y)| x != y)
        .is_some_and(|(x, y)| x < y)
}
