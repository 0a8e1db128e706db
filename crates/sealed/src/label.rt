//! What a sheet tells before it is opened.

// The numbers of a sheet's header, in clear.
#[derive(Clone, Copy, PartialEq, Eq, Debug)]
pub struct Label {
    pub slot: u8,
    pub kind: u8,
    pub serial: u32,
}
