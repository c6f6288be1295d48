// Groups and settings of a small frame, lever by lever, in the words of the rules. The trial is written with these alone.
use std::alloc::{AllocError, Global};

// The most levers of a frame that is tried.
pub const MOST_TRIED: usize = 6;

// A sign, in the order of a table.
#[derive(Clone, Copy, PartialEq, Eq, PartialOrd, Ord)]
pub enum Mark {
    Plus,
    Minus,
    Star,
}

// The state of a lever.
#[derive(Clone, Copy, PartialEq, Eq)]
pub enum State {
    Normal,
    Reversed,
    Between,
}

// A group: the sign of each lever that it names.
#[derive(Clone, Copy, PartialEq, Eq)]
pub struct Marks {
    pub marks: [Option<Mark>; MOST_TRIED],
}

// A setting: the state of each lever. Where a frame has fewer levers, those behind them are normal, and no group names them.
#[derive(Clone, Copy)]
pub struct Setting {
    pub states: [State; MOST_TRIED],
}

impl Mark {
    // Whether the sign holds for a lever in a state.
    fn holds(self, state: State) -> bool {
        match self {
            Mark::Plus => matches!(state, State::Normal | State::Between),
            Mark::Minus => matches!(state, State::Reversed | State::Between),
            Mark::Star => state == State::Between,
        }
    }
}

impl Marks {
    // The group of no items.
    pub fn empty() -> Marks {
        Marks {
            marks: [None; MOST_TRIED],
        }
    }

    // Every group of so many levers.
    pub(super) fn every(heap: Global, levers: usize) -> Result<Vec<Marks>, AllocError> {
        let signs = [Mark::Plus, Mark::Minus, Mark::Star];
        every(heap, Marks::empty(), levers, &signs, Marks::with)
    }

    // The group with the lever at a place given a sign, whatever sign it had.
    pub(super) fn with(mut self, place: usize, mark: Mark) -> Marks {
        if let Some(held) = self.marks.get_mut(place) {
            *held = Some(mark);
        }
        self
    }

    // Whether each plate of this group is in the other, with the same sign or with *.
    pub fn covers(&self, other: &Marks) -> bool {
        self.marks.iter().zip(other.marks.iter()).all(|(mark, there)| mark.is_none()
            || mark == there
            || *there == Some(Mark::Star))
    }
}

impl Setting {
    // Every setting of so many levers.
    pub(super) fn every(heap: Global, levers: usize) -> Result<Vec<Setting>, AllocError> {
        let normal = Setting {
            states: [State::Normal; MOST_TRIED],
        };
        let others = [State::Reversed, State::Between];
        every(heap, normal, levers, &others, Setting::with)
    }

    // The setting with the lever at a place in a state.
    fn with(mut self, place: usize, state: State) -> Setting {
        if let Some(held) = self.states.get_mut(place) {
            *held = state;
        }
        self
    }

    // Whether all signs of a group hold.
    pub fn shows(&self, group: &Marks) -> bool {
        self.states
            .iter()
            .zip(group.marks.iter())
            .all(|(state, mark)| mark.is_none_or(|mark| mark.holds(*state)))
    }

    // Whether it shows one of some groups.
    pub fn shows_any(&self, groups: &[Marks]) -> bool {
        groups.iter().any(|group| self.shows(group))
    }
}

// Every group or setting that comes of a first one, where at each of so many places it stays or gets one of some values.
fn every<V: Copy, T: Copy, F: Fn(V, usize, T) -> V>(
    heap: Global,
    first: V,
    places: usize,
    values: &[T],
    with: F,
) -> Result<Vec<V>, AllocError>
    requires { F.IsAlwaysCallable with }
{
    let mut all = Vec::new(heap);
    all.push(first)?;
    for place in 0..places {
        let mut more = Vec::new(heap);
        for one in &all {
            more.push(*one)?;
            for value in values {
                more.push(with(*one, place, *value))?;
            }
        }
        all = more;
    }
    Ok(all)
}
