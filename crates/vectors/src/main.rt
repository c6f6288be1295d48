// Reads worked examples, and a short text with every byte in every position, and compares each answer with what it should be.
#![tactic(auto)]

use entries::{answer_group, tell};
use faults::{Fault, Layer, Place, TextFault};
use reading::reader::{read_group, read_plate};
use std::alloc::Global;
use std::io;

// Groups and the answers to them, as answer lines of line 1.
const GROUPS: [(&str, &str); 22] = [
    ("(5- 6+ 7*)", "1 (5- 6+ 7*)"),
    ("(7* 6+ 5-)", "1 (5- 6+ 7*)"),
    ("(2097151+)", "1 (2097151+)"),
    ("(1- 2- 3- 4- 5- 6- 7- 8-)", "1 (1- 2- 3- 4- 5- 6- 7- 8-)"),
    ("(1- 2- 3- 4- 5- 6- 7- 8- 9-)", "1 no 5 at 25"),
    ("(1- 2- 3- 4- 5- 6- 7- 8- 1-)", "1 no 5 at 25"),
    ("(1- 2- 3- 4- 5- 6- 7- 8- 0-)", "1 no 2 at 25"),
    ("(5- 5+)", "1 no 4 at 4"),
    ("(5- 5)", "1 no 4 at 4"),
    ("(5-6-)", "1 no 3 at 3"),
    ("(5-", "1 no 3 at 3"),
    ("(5", "1 no 3 at 2"),
    ("()", "1 no 2 at 1"),
    ("", "1 no 3 at 0"),
    ("(", "1 no 2 at 1"),
    ("(05-)", "1 no 2 at 1"),
    ("(0-)", "1 no 2 at 1"),
    ("(2097152+)", "1 no 2 at 1"),
    ("(5-  6-)", "1 no 2 at 4"),
    ("(5-) ", "1 no 3 at 4"),
    (" (5-)", "1 no 3 at 0"),
    ("(5- 6-))", "1 no 3 at 7"),
];

// Numbers where the text begins at byte 4, with the plate, or the refusal's number and its byte.
const NUMBERS: [(&str, Result<u32, (u8, usize)>); 9] = [
    ("5", Ok(5)),
    ("2097151", Ok(2_097_151)),
    ("2097152", Err((2, 4))),
    ("05", Err((2, 4))),
    ("0", Err((2, 4))),
    ("", Err((2, 4))),
    ("x", Err((2, 4))),
    ("5 ", Err((3, 5))),
    ("2097151+", Err((3, 11))),
];

// The text in which every byte is tried in every position.
const SHORT: [u8; 7] = *b"(5+ 6-)";

fn main(rt: HostRuntime) -> io::Result<()> {
    let heap = rt.alloc();
    let groups = count_groups(&rt)?;
    println!(rt; "groups: {groups} as expected")?;
    let numbers = count_numbers(&rt)?;
    println!(rt; "numbers: {numbers} as expected")?;
    let bytes = count_bytes(&rt)?;
    println!(rt; "bytes: {bytes} as expected")?;
    let long = long_number(heap)?;
    println!(rt; "a number of 4000 digits: {long}")
}

// How many of the groups are answered as they should be; prints the others. A `for`, here and below, since printing may fail.
fn count_groups(rt: &HostRuntime) -> io::Result<u32> {
    let mut count: u32 = 0;
    for (text, expected) in GROUPS {
        if is_answer(text.as_bytes(), expected.as_bytes()) {
            count = count.saturating_add(1);
        } else {
            println!(rt; "group {text} is not answered by {expected}")?;
        }
    }
    Ok(count)
}

// How many of the numbers are answered as they should be; prints the others.
fn count_numbers(rt: &HostRuntime) -> io::Result<u32> {
    let mut count: u32 = 0;
    for (text, expected) in NUMBERS {
        let answer = expected.map_err(|(number, byte)| text_fault(number, byte));
        if read_plate(text.as_bytes(), 4) == answer {
            count = count.saturating_add(1);
        } else {
            println!(rt; "number {text} is not answered as expected")?;
        }
    }
    Ok(count)
}

// How many of the texts with one byte replaced are answered as they should be; prints the others.
fn count_bytes(rt: &HostRuntime) -> io::Result<u32> {
    let mut count: u32 = 0;
    for position in 0..SHORT.len() {
        for byte in 0..=255u8 {
            let mut text = SHORT;
            text[position] = byte;
            if read_group(&text, 0).err() == fault_of(position, byte) {
                count = count.saturating_add(1);
            } else {
                println!(rt; "byte {byte} in position {position} is not answered as expected")?;
            }
        }
    }
    Ok(count)
}

// Whether a line is answered by these bytes.
fn is_answer(text: &[u8], expected: &[u8]) -> bool {
    let mut buffer = [0; 320];
    let length = match answer_group(text, 1, &mut buffer) {
        Ok(reading) => Some(reading.length),
        Err(fault) => tell(1, fault.into(), &mut buffer).ok().flatten(),
    };
    length.and_then(|n| buffer.get(..n)) == Some(expected)
}

// The fault that a text has at a byte, with the refusal's number as the rules give it: none of it comes from the reader that is
// tried.
fn text_fault(number: u8, byte: usize) -> TextFault {
    TextFault {
        fault: Fault {
            number,
            layer: Layer::Text,
            place: Place::Byte(byte),
        },
    }
}

// The fault of the short text with a byte in a position, written down from the rules, case by case.
fn fault_of(position: usize, byte: u8) -> Option<TextFault> {
    let digit = byte.is_ascii_digit();
    let sign = matches!(byte, b'+' | b'-' | b'*');
    match position {
        0 if byte == b'(' => None,
        1 if byte == b'6' => Some(text_fault(4, 4)),
        1 if digit && byte != b'0' => None,
        1 => Some(text_fault(2, 1)),
        2 if sign => None,
        2 if digit => Some(text_fault(3, 3)),
        3 if byte == b' ' => None,
        3 if byte == b')' => Some(text_fault(3, 4)),
        4 if byte == b'5' => Some(text_fault(4, 4)),
        4 if digit && byte != b'0' => None,
        4 => Some(text_fault(2, 4)),
        5 if sign => None,
        5 if digit => Some(text_fault(3, 6)),
        6 if byte == b')' => None,
        6 if byte == b' ' => Some(text_fault(2, 7)),
        _ => Some(text_fault(3, position)),
    }
}

// How a group with a number of 4000 digits is answered.
fn long_number(heap: Global) -> io::Result<&'static str> {
    let mut text = vec![in heap; b'9'; 4003]?;
    text[0] = b'(';
    text[4001] = b'+';
    text[4002] = b')';
    if read_group(text.as_slice(), 0).err() == Some(text_fault(2, 1)) {
        Ok("refused at its first digit")
    } else {
        Ok("answered otherwise")
    }
}
