// Writing a number or a group into the caller's buffer. lines/specs/Texts.antt says what is written and what a call leaves in
// the buffer, specs/Back.antt that a group is read back from it.
#![tactic(auto)]

ghost use Rattle.std.specs.Prelude.{◌≡◌, Some, None, decimal};
ghost use Rattle.std.specs.Option.{option_map};
ghost use Rattle.groups.specs.Groups.{items_of};
ghost use Rattle.lines.specs.Lines.{text_of};
ghost use Rattle.lines.specs.Texts.{group_text, write_answer, write_after};
ghost use Rattle.writing.specs.Back.{ReadBack, ReadsBack};

use faults::{Fault, Place, Refusal};
use groups::group::Group;
use lines::line::Line;
use lines::texts::LINE;

// The line of a number.
#[tactic(auto, using(crate::proofs::Lengths::line_rules))]
fn number_line(number: u32) -> Line
    ensures { text_of result ≡ decimal number }
{
    let mut line = Line::new();
    line.put_number(u64::from(number));
    line
}

// The line of a group.
#[tactic(auto, using(crate::proofs::Lengths::line_rules, crate::proofs::Back::read_back))]
fn group_line(group: &Group) -> Line
    ensures value { text_of result ≡ group_text (items_of group.now) }
    ensures back { ReadBack (items_of group.now) }
{
    let mut line = Line::new();
    line.put_group(group);
    line
}

// Writes nothing: the answer where there is nothing to write.
pub fn write_nothing(buffer: &[u8]) -> Result<Option<usize>, Fault>
    ensures { result ≡ write_answer None buffer.now }
{
    if buffer.len() < LINE {
        return Err(Refusal::ShortBuffer.at(Place::Nowhere));
    }
    Ok(None)
}

// Writes a number, or nothing where there is none. One function with `write_group` would have to carry a whole line in an
// `Option`.
pub fn write_number(number: Option<u32>, buffer: &mut [u8]) -> Result<Option<usize>, Fault>
    ensures answer { result ≡ write_answer (option_map decimal number) buffer.old }
    ensures after { buffer.new ≡ write_after (option_map decimal number) buffer.old }
{
    let Some(number) = number else {
        return write_nothing(buffer);
    };
    number_line(number).write(buffer)
}

// Writes a group, or nothing where there is none.
#[tactic(auto, using(std::proofs::lemmas::List::take_at))]
pub fn write_group(group: Option<&Group>, buffer: &mut [u8]) -> Result<Option<usize>, Fault>
    ensures answer { result ≡ write_answer (option_map (λ g. group_text (items_of g.now)) group.entry) buffer.old }
    ensures after { buffer.new ≡ write_after (option_map (λ g. group_text (items_of g.now)) group.entry) buffer.old }
    ensures back { ReadsBack (option_map (λ g. items_of g.now) group.entry) result buffer.new }
{
    let Some(group) = group else {
        return write_nothing(buffer);
    };
    group_line(group).write(buffer)
}
