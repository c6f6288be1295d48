// The crews that drawn frames are tried with.
use super::drawing::Drawn;
use crews::any::AnyCrew;
use crews::free::Free;
use crews::hands::Hands;
use crews::split::Split;
use std::fmt;

// A crew, of which a split one parts each frame at a plate of the frame's own.
#[derive(Clone, Copy)]
pub enum Tried {
    Hands(u32),
    Split,
    Free,
}

impl Tried {
    // The crew for a frame.
    pub(super) fn of_frame(self, frame: &Drawn) -> AnyCrew {
        match self {
            Tried::Hands(count) => AnyCrew::Hands(Hands::new(count)),
            Tried::Split => AnyCrew::Split(Split::new(frame.parted)),
            Tried::Free => AnyCrew::Free(Free),
        }
    }
}

impl fmt::Display for Tried {
    // What the crew is called.
    fn fmt<W: fmt::Write>(&self, f: &mut fmt::Formatter<W>) -> fmt::Result {
        match self {
            Tried::Hands(count) => write!(f, "hands, {count}"),
            Tried::Split => write!(f, "split"),
            Tried::Free => write!(f, "free"),
        }
    }
}
