// A line of text into a frame, and the answer lines of what was read and of a fault.
// specs/Entries.antt says which answer comes of which line.
#![tactic(auto)]

ghost use Rattle.std.specs.Prelude.{◌≡◌, ◌≤◌, ◌∷◌, ◌++◌, length, Some, decimal};
ghost use Rattle.frames.specs.Fitted.{fitted};
ghost use Rattle.groups.specs.Groups.{items_of};
ghost use Rattle.lines.specs.Lines.{text_of, cut};
ghost use Rattle.lines.specs.Texts.{write_answer, write_after};
ghost use Rattle.entries.specs.Entries.{EntersAs, group_line, line_answer, line_after, held_by, place_text, tell_text};

use faults::{Fault, JournalFault, Place, SheetFault};
use frames::plates::Plates;
use groups::group::Group;
use lines::line::Line;
use placed::Placed;
use reading::reader::read_group;
use writing::write_nothing;

// A group that was read, and how many bytes of the caller's buffer its answer line takes, as each call that writes says.
#[derive(Drop)]
pub struct Reading {
    pub group: Group,
    pub length: usize,
}

// Reads a group and takes it into a frame. The text's first byte stands at `start`, from which places count.
pub fn read_placed(plates: &Plates, text: &[u8], start: usize) -> Result<Placed, SheetFault>
    ensures { EntersAs (fitted plates.now) start text.now result }
{
    let group = read_group(text, start)?;
    let placed = plates.place(&group)?;
    Ok(placed)
}

// Reads a line that has to be a group, and writes its answer line.
pub fn answer_group(text: &[u8], number: u32, buffer: &mut [u8]) -> Result<Reading, JournalFault>
    ensures answer { held_by result ≡ line_answer number text.now buffer.old }
    ensures after { buffer.new ≡ line_after number text.now buffer.old }
{
    write_nothing(buffer)?;
    let group = read_group(text, 0)?;
    let line = group_line(number, &group);
    line.write(buffer)?;
    let length = line.text().len();
    Ok(Reading { group, length })
}

// The answer line of a group that was read.
#[tactic(auto, using(crate::proofs::Lengths::group_line_rules))]
fn group_line(number: u32, group: &Group) -> Line
    ensures { text_of result ≡ group_line number (items_of group.now) }
{
    let mut line = Line::new();
    line.put_number(u64::from(number));
    line.put_text(b" ");
    line.put_group(group);
    line
}

// Writes the answer line of a fault.
pub fn tell(number: u32, fault: Fault, buffer: &mut [u8]) -> Result<Option<usize>, Fault>
    ensures answer { result ≡ write_answer (Some (tell_text number fault)) buffer.old }
    ensures after { buffer.new ≡ write_after (Some (tell_text number fault)) buffer.old }
{
    fault_line(number, fault).write(buffer)
}

// The answer line of a fault.
#[tactic(auto, using(crate::proofs::Lengths::fault_line_rules))]
fn fault_line(number: u32, fault: Fault) -> Line
    ensures { text_of result ≡ tell_text number fault }
{
    let mut line = Line::new();
    line.put_number(u64::from(number));
    line.put_text(b" no ");
    line.put_number(u64::from(fault.number));
    put_place(&mut line, fault.place);
    line
}

// Puts a place behind the text of a line. It takes at most 27 bytes.
#[tactic(auto, using(crate::proofs::Lengths::place_rules))]
fn put_place(line: &mut Line, place: Place)
    ensures after { text_of line.new ≡ cut (text_of line.old ++ place_text place) }
    ensures short { length (place_text place) ≤ 27 }
{
    match place {
        Place::Nowhere => {}
        Place::Byte(byte) => {
            line.put_text(b" at ");
            line.put_number(byte as u64);
        }
        Place::Plate(plate) => {
            line.put_text(b" plate ");
            line.put_number(u64::from(plate));
        }
    }
}
