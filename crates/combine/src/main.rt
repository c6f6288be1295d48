// Reads a group from each line of standard input and says what it read, or which fault the line has. Then writes each
// combination of two of the groups on each lever where they oppose, and last how many of each there were.
#![tactic(auto)]

use entries::{answer_group, read_placed, tell};
use frames::plates::Plates;
use groups::group::Group;
use lines::line::Line;
use lines::texts::LINE;
use placed::Placed;
use std::alloc::Global;
use std::io;
use std::io::{BufWriter, Read, Write};
use writing::write_group;

// The most bytes of input.
const MOST_INPUT: usize = 65_536;

// A line that was read as a group.
#[derive(Clone, Copy)]
struct Entry<'a> {
    number: u32,
    text: &'a [u8],
}

// A group by places, with the number of its line.
#[derive(Clone, Copy)]
struct Numbered {
    number: u32,
    placed: Placed,
}

// A combination of the groups of two lines, on a plate.
#[derive(Clone, Copy)]
struct Combination {
    first: u32,
    second: u32,
    plate: u32,
    placed: Placed,
}

// What was read: the lines with a group, all their plates, and how many lines were refused.
#[derive(Drop)]
struct Lines<'a> {
    entries: Vec<Entry<'a>>,
    plates: Vec<u32>,
    refused: u32,
}

fn main(rt: HostRuntime) -> io::Result<()> {
    let heap = rt.alloc();
    let mut input = Vec::new(heap);
    rt.stdin()
        .take(MOST_INPUT as u64 + 1)
        .read_to_end(&mut input)?;
    let mut out = BufWriter::new(heap, rt.stdout())?;
    report(heap, input.as_slice(), &mut out)?;
    out.flush()
}

// The whole answer to an input. Its last line is put together by `Line`, as all that is written is.
fn report<W: Write>(heap: Global, input: &[u8], out: &mut W) -> io::Result<()> {
    if input.is_empty() {
        return out.write_all(b"nothing to read\n");
    }
    if input.len() > MOST_INPUT {
        return out.write_all(b"too long\n");
    }
    let mut lines = read_lines(heap, input, out)?;
    lines.plates.sort_unstable();
    lines.plates.dedup();
    let Ok(plates) = Plates::try_from(lines.plates.as_slice()) else {
        return out.write_all(b"more than 32 different plates\n");
    };
    let groups = place_all(heap, &plates, lines.entries.as_slice())?;
    let combinations = write_combinations(&plates, groups.as_slice(), out)?;
    let mut line = Line::new();
    line.put_number(groups.len() as u64);
    line.put_text(b" read, ");
    line.put_number(u64::from(lines.refused));
    line.put_text(b" refused, ");
    line.put_number(combinations);
    line.put_text(b" combinations\n");
    out.write_all(line.text())
}

// Reads every line, and answers each. A line ends with a line feed or with the input. A `for`, which counts what is refused,
// since an answer's writing may fail.
fn read_lines<'a, W: Write>(heap: Global, input: &'a [u8], out: &mut W) -> io::Result<Lines<'a>> {
    let mut entries = Vec::new(heap);
    let mut plates = Vec::new(heap);
    let mut refused: u32 = 0;
    let lines = input.split_inclusive(|byte| *byte == b'\n');
    for (number, line) in (1..=u32::MAX).zip(lines) {
        let text = line.strip_suffix(b"\n").unwrap_or(line);
        match read_line(text, number, out)? {
            Some(group) => {
                entries.push(Entry { number, text })?;
                plates.extend(group.items().iter().map(|item| item.plate))?;
            }
            None => refused = refused.saturating_add(1),
        }
    }
    Ok(Lines {
        entries,
        plates,
        refused,
    })
}

// Reads one line, and writes its answer.
fn read_line<W: Write>(text: &[u8], number: u32, out: &mut W) -> io::Result<Option<Group>> {
    let mut buffer = [0; LINE];
    match answer_group(text, number, &mut buffer) {
        Ok(reading) => {
            write_line(&buffer, Some(reading.length), out)?;
            Ok(Some(reading.group))
        }
        Err(fault) => {
            let told = tell(number, fault.into(), &mut buffer);
            write_line(&buffer, told.ok().flatten(), out)?;
            Ok(None)
        }
    }
}

// Writes the text at the front of a buffer, if there is one, and a line feed. The calls that write answer the length.
fn write_line<W: Write>(buffer: &[u8], length: Option<usize>, out: &mut W) -> io::Result<()> {
    let text = length.and_then(|n| buffer.get(..n)).unwrap_or(&[]);
    out.write_all(text)?;
    out.write_all(b"\n")
}

// Every group that was read, by its places in the frame. A `for`, since each turn may run out of memory.
fn place_all(heap: Global, plates: &Plates, entries: &[Entry]) -> io::Result<Vec<Numbered>> {
    let mut groups = Vec::new(heap);
    for entry in entries {
        if let Ok(placed) = read_placed(plates, entry.text, 0) {
            groups.push(Numbered {
                number: entry.number,
                placed,
            })?;
        }
    }
    Ok(groups)
}

// Writes the combinations of each two groups, and answers how many there are. Each turn writes, which may fail.
fn write_combinations<W: Write>(
    plates: &Plates,
    groups: &[Numbered],
    out: &mut W,
) -> io::Result<u64> {
    let mut count: u64 = 0;
    for (i, first) in groups.iter().enumerate() {
        for second in &groups[i + 1..] {
            count = count.saturating_add(write_pair(plates, *first, *second, out)?);
        }
    }
    Ok(count)
}

// Writes the combinations of two groups, by rising plates, and answers how many there are: none where they oppose each other
// nowhere. Each turn writes, which may fail.
fn write_pair<W: Write>(
    plates: &Plates,
    first: Numbered,
    second: Numbered,
    out: &mut W,
) -> io::Result<u64> {
    if first.placed.opposing(second.placed).is_none() {
        return Ok(0);
    }
    let mut count: u64 = 0;
    for (place, plate) in plates.all().iter().enumerate() {
        if let Some(placed) = on_place(first.placed, second.placed, place) {
            let combination = Combination {
                first: first.number,
                second: second.number,
                plate: *plate,
                placed,
            };
            write_combination(plates, combination, out)?;
            count = count.saturating_add(1);
        }
    }
    Ok(count)
}

// The combination of two groups on the lever at a place, whichever of the two has + there.
fn on_place(a: Placed, b: Placed, place: usize) -> Option<Placed> {
    a.combine(b, place).or_else(|| b.combine(a, place))
}

// Writes one combination, with the numbers of the two lines and the plate on which they are combined.
fn write_combination<W: Write>(
    plates: &Plates,
    combination: Combination,
    out: &mut W,
) -> io::Result<()> {
    let Combination {
        first,
        second,
        plate,
        placed,
    } = combination;
    let mut line = Line::new();
    line.put_number(u64::from(first));
    line.put_text(b" ");
    line.put_number(u64::from(second));
    line.put_text(b" on ");
    line.put_number(u64::from(plate));
    line.put_text(b" ");
    out.write_all(line.text())?;
    let mut buffer = [0; LINE];
    let group = plates.spell(placed);
    let written = write_group(Some(&group), &mut buffer);
    write_line(&buffer, written.ok().flatten(), out)
}

#[cfg(test)]
mod tests {
    use super::*;
    use std::process::Abort;
    use std::test::Fail;

    // Checks how the whole answer to an input ends.
    fn ends(rt: &impl Abort, heap: Global, input: &[u8], ending: &[u8]) -> Result<(), Fail> {
        let mut out = Vec::new(heap);
        report(heap, input, &mut out)?;
        assert!(rt; out.as_slice().ends_with(ending));
        Ok(())
    }

    // Lines of one lever each, with plates of two digits from 10 on.
    fn levers(heap: Global, count: u8) -> io::Result<Vec<u8>> {
        let mut text = Vec::new(heap);
        for n in 0..count {
            let tens = (n / 10 % 9) + b'1';
            let ones = (n % 10) + b'0';
            text.extend_from_slice(&[b'(', tens, ones, b'+', b')', b'\n'])?;
        }
        Ok(text)
    }

    #[test]
    fn plain_endings(rt: HostRuntime) -> Result<(), Fail> {
        let heap = rt.alloc();
        ends(&rt, heap, b"", b"nothing to read\n")?;
        ends(&rt, heap, b"\xff", b"0 read, 1 refused, 0 combinations\n")?;
        ends(
            &rt,
            heap,
            b"(5+)\n(5-)",
            b"1 2 on 5 ()\n2 read, 0 refused, 1 combinations\n",
        )?;
        ends(
            &rt,
            heap,
            levers(heap, 32)?.as_slice(),
            b"32 read, 0 refused, 0 combinations\n",
        )?;
        ends(
            &rt,
            heap,
            levers(heap, 33)?.as_slice(),
            b"more than 32 different plates\n",
        )?;
        let mut long = vec![in heap; b'\n'; 65_536]?;
        ends(
            &rt,
            heap,
            long.as_slice(),
            b"0 read, 65536 refused, 0 combinations\n",
        )?;
        long.push(b'\n')?;
        ends(&rt, heap, long.as_slice(), b"too long\n")
    }
}
