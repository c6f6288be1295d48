// The type of a manned frame.
use frames::plates::Plates;

// A frame's plates, and who moves its levers.
#[derive_where(Clone, Copy)]
pub struct Manned<'a, C> {
    pub crew: &'a C,
    pub plates: &'a Plates,
}
