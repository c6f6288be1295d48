// The engine behind a C interface, for the benchmark of bench/: a whole frame comes in as bytes, and its table or its cut
// list goes out as bytes. What is proved here is that every call is safe and ends, whatever the bytes are.
//
// A frame has the plates 1 to a number of at most 32. A crew is a kind (0 free, 1 hands, else split) and its number. A line
// is 16 bytes, eight times a plate and a sign, with the plate 0 for no item; lines from the 129th on are passed over. A
// group goes out as eight bytes: its upper ends and then its lower ends, each as a number of 32 bits, the lowest byte first.
#![tactic(auto)]

ghost use Rattle.std.specs.Prelude.{length, ◌<◌};
ghost use Rattle.frames.specs.Fitted.{fitted};
ghost use Rattle.rows.specs.Rows.{groups_of, AllWithin};

use self::reading::{crew_of, line_of, plates_up_to};
use self::refused::Refused;
use self::writing::write_groups;
use crews::any::AnyCrew;
use crews::crew::Crew;
use cutting::{MOST_LINES, cut_list};
use fixed::row::Row;
use frames::plates::Plates;
use groups::group::Group;
use growing::{MOST_GROUPS, grow};
use managing::manned::Manned;
use placed::Placed;

mod reading;
mod refused;
mod writing;

// The bytes of one line.
const LINE_BYTES: usize = 16;

// What became of a line that is in force, as the byte that C gets.
const ENTERED: u8 = 0;

// Enters the lines one after the other, and writes what became of each, and the groups of the table. How many groups the
// table has. C passes the crew's kind as a number, here and below.
#[unsafe(no_mangle)]
pub extern "C" fn boundary_table(
    levers: u32,
    kind: u32,
    number: u32,
    lines: &[u8],
    answers: &mut [u8],
    groups: &mut [u8],
) -> usize {
    let plates = plates_up_to(levers);
    let plates = &plates;
    // One engine for each crew: with one that takes any crew, a table takes a sixth more time.
    let table = match crew_of(kind, number) {
        AnyCrew::Free(crew) => enter_all(
            Manned {
                crew: &crew,
                plates,
            },
            lines,
            answers,
        ),
        AnyCrew::Hands(crew) => enter_all(
            Manned {
                crew: &crew,
                plates,
            },
            lines,
            answers,
        ),
        AnyCrew::Split(crew) => enter_all(
            Manned {
                crew: &crew,
                plates,
            },
            lines,
            answers,
        ),
    };
    write_groups(table.all(), groups);
    table.all().len()
}

// Takes all lines as those in force, and writes the cut list. How many lines it has.
#[unsafe(no_mangle)]
pub extern "C" fn boundary_cut(
    levers: u32,
    kind: u32,
    number: u32,
    lines: &[u8],
    groups: &mut [u8],
) -> usize {
    let plates = plates_up_to(levers);
    let row = read_all(&plates, lines);
    let frame = Manned {
        crew: &crew_of(kind, number),
        plates: &plates,
    };
    let list = cut_list(frame, &row);
    write_groups(list.all(), groups);
    list.all().len()
}

// The table of the lines, entered one after the other; a line that is refused is left out. What became of each is written
// where it has a place.
fn enter_all<C: Crew>(
    frame: Manned<'_, C>,
    lines: &[u8],
    answers: &mut [u8],
) -> Row<Placed, MOST_GROUPS> {
    let mut table = Row::new(Placed::empty());
    let mut answers = answers.iter_mut();
    for bytes in lines.chunks(LINE_BYTES).take(MOST_LINES) {
        let entered = enter(frame, &mut table, &line_of(bytes));
        if let Some(answer) = answers.next() {
            *answer = entered.err().map_or(ENTERED, u8::from);
        }
    }
    table
}

// Enters one line.
fn enter<C: Crew>(
    frame: Manned<'_, C>,
    table: &mut Row<Placed, MOST_GROUPS>,
    line: &Group,
) -> Result<(), Refused>
    requires { AllWithin (length (fitted frame.plates.now)) (groups_of table.old) }
    ensures { AllWithin (length (fitted frame.entry.plates.now)) (groups_of table.new) }
{
    let line = frame.plates.place(line)?;
    *table = grow(frame, table, line)?;
    Ok(())
}

// The lines whose plates are fitted.
fn read_all(plates: &Plates, lines: &[u8]) -> Row<Placed, MOST_LINES> {
    let mut row = Row::new(Placed::empty());
    for bytes in lines.chunks(LINE_BYTES).take(MOST_LINES) {
        if let Ok(line) = plates.place(&line_of(bytes)) {
            let _ = row.push(line);
        }
    }
    row
}
