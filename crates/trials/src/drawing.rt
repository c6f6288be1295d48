// Frames that are drawn by lot: two to six levers, and one to six lines of one to four items.
use super::lottery::Lottery;
use super::signs::{Mark, Marks};
use std::alloc::{AllocError, Global};

// A small frame: the plates of its levers, its lines, and the plate at which a split crew parts it.
#[derive(Drop)]
pub struct Drawn {
    pub plates: Vec<u32>,
    pub lines: Vec<Marks>,
    pub parted: u32,
}

// Draws so many frames. A `for`, here and below, since each turn may run out of memory.
pub(super) fn draw_all(
    heap: Global,
    lottery: &mut Lottery,
    count: u32,
) -> Result<Vec<Drawn>, AllocError> {
    let mut frames = Vec::new(heap);
    for _ in 0..count {
        frames.push(draw(heap, lottery)?)?;
    }
    Ok(frames)
}

// Draws a frame.
fn draw(heap: Global, lottery: &mut Lottery) -> Result<Drawn, AllocError> {
    let levers = lottery.below(5).saturating_add(2);
    let plates = draw_plates(heap, lottery, levers)?;
    let place = lottery.below(levers);
    let mut lines = Vec::new(heap);
    for _ in 0..=lottery.below(6) {
        lines.push(draw_line(lottery, levers))?;
    }
    let parted = plates.get(place as usize).copied().unwrap_or(0);
    Ok(Drawn {
        plates,
        lines,
        parted,
    })
}

// Draws so many plates, in rising order.
fn draw_plates(heap: Global, lottery: &mut Lottery, levers: u32) -> Result<Vec<u32>, AllocError> {
    let mut plates = Vec::new(heap);
    let mut plate: u32 = 0;
    for _ in 0..levers {
        plate = plate.saturating_add(lottery.below(9)).saturating_add(1);
        plates.push(plate)?;
    }
    Ok(plates)
}

// Draws a line: one to four times a lever and its sign, of which the last counts where a lever comes again.
fn draw_line(lottery: &mut Lottery, levers: u32) -> Marks {
    let mut line = Marks::empty();
    for _ in 0..=lottery.below(4) {
        let place = lottery.below(levers) as usize;
        line = line.with(place, draw_mark(lottery));
    }
    line
}

// Draws a sign: * half as often as + and -.
fn draw_mark(lottery: &mut Lottery) -> Mark {
    match lottery.below(5) {
        0 | 1 => Mark::Plus,
        2 | 3 => Mark::Minus,
        _ => Mark::Star,
    }
}
