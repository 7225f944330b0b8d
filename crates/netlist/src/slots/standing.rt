// The used places of a table, one after another.
ghost use Rattle.std.specs.Prelude.{◌≡◌, length};

// Those that are still to come: the bits of their places, and the values of the whole table.
#[derive(Drop)]
pub struct Standing<'a, T> {
    pub(crate) map: u8,
    pub(crate) values: &'a [T],
    ghost eight: { length values.now ≡ 8 },
}
