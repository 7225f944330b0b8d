// The place in a record at which its next part is read.
ghost use Rattle.std.specs.Prelude.{◌≤◌, length};

// Methods move the place alone: each says that the bytes stay.
#[derive(Drop)]
pub(crate) struct Cursor<'a> {
    pub(crate) bytes: &'a [u8],
    pub(crate) at: usize,
    ghost within: { at ≤ length bytes.now },
}
