// Runs frames through the engine, and compares their tables and cut lists with what they should be: worked examples with
// what is known of them, and frames drawn by lot with a trial of all their settings.
#![tactic(auto)]

mod agreeing;
mod comparing;
mod drawing;
mod examples;
mod lottery;
mod running;
mod signs;
mod trial;
mod tried;

use comparing::{Tally, compare};
use drawing::draw_all;
use lottery::Lottery;
use std::io;
use tried::Tried;

// How many frames are drawn.
const DRAWN: u32 = 120;

// The crews that they are tried with.
const CREWS: [Tried; 5] = [
    Tried::Hands(0),
    Tried::Hands(1),
    Tried::Hands(2),
    Tried::Split,
    Tried::Free,
];

fn main(rt: HostRuntime) -> io::Result<()> {
    tell_examples(&rt)?;
    tell_drawn(&rt)
}

// Runs the worked examples.
fn tell_examples(rt: &HostRuntime) -> io::Result<()> {
    let heap = rt.alloc();
    let small = examples::small_frames(heap)?;
    println!(rt; "small frames: {small} tables as expected")?;
    let either = examples::last_is_cut(heap)?;
    println!(rt; "of two lines that can be left out, the last alone is: {either}")?;
    match examples::seven_levers(heap)? {
        Some(groups) => println!(rt; "seven levers: {groups} groups, and (7- 30-) is one of them")?,
        None => println!(rt; "seven levers: (7- 30-) is no group of the table")?,
    }
    tell_fan(rt, [7, 7, 6])?;
    tell_fan(rt, [7, 7, 7])
}

// Runs a fan, and tells what the engine makes of it.
fn tell_fan(rt: &HostRuntime, counts: [u32; 3]) -> io::Result<()> {
    match examples::fan(rt.alloc(), counts)? {
        Some(outcome) => println!(rt; "{outcome}"),
        None => println!(rt; "no frame"),
    }
}

// Draws frames, and compares what engine and trial make of each with five crews.
fn tell_drawn(rt: &HostRuntime) -> io::Result<()> {
    let heap = rt.alloc();
    let frames = draw_all(heap, &mut Lottery::new(), DRAWN)?;
    for crew in CREWS {
        let mut tally = Tally::default();
        for frame in &frames {
            compare(heap, &crew.of_frame(frame), frame, &mut tally)?;
        }
        println!(rt; "{crew}: {tally}")?;
    }
    Ok(())
}
