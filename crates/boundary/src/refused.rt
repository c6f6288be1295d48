// Why a line is refused.
use faults::Fault;
use growing::Stop;

// A line that is refused: no setting would be possible, or the table would have too many groups, or a plate is not fitted.
// C knows it by its number; 0 says that the line is in force.
#[derive(Clone, Copy)]
pub(super) enum Refused {
    NothingPossible = 1,
    TooMany = 2,
    NotFitted = 3,
}

impl From<Stop> for Refused {
    // Why there is no table with the line.
    fn from(stop: Stop) -> Refused {
        match stop {
            Stop::NothingPossible => Refused::NothingPossible,
            Stop::TooMany => Refused::TooMany,
        }
    }
}

impl From<Fault> for Refused {
    // The one fault of a line whose items are read: a plate that is not fitted.
    fn from(_fault: Fault) -> Refused {
        Refused::NotFitted
    }
}

impl From<Refused> for u8 {
    // The number that C knows it by.
    fn from(refused: Refused) -> u8 {
        refused as u8
    }
}
