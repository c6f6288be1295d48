// The type of a line of text.
use fixed::row::Row;

// At most 320 bytes of text.
#[derive(Drop)]
pub struct Line {
    pub(super) bytes: Row<u8, 320>,
}
