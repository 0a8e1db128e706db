//! A key of 1 to 32 bytes.

ghost use Rattle.std.specs.Prelude.{◌<◌, ◌≤◌};

// A key: the first `len` of the bytes, 1 to 32 of them. A buffer and its
// length, since a box has no heap and keys are copied.
#[derive(Clone, Copy)]
pub struct Key {
    pub(crate) bytes: [u8; 32],
    pub(crate) len: usize,
    ghost some: { 0 < len },
    ghost few: { len ≤ 32 },
}
