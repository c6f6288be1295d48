// What is put into a line, and a line into the caller's buffer.
ghost use Rattle.std.specs.Prelude.{◌≡◌, ◌≤◌, List, [], ◌∷◌, ◌++◌, length, Some, decimal};
ghost use Rattle.std.specs.List.{flat_map};
ghost use Rattle.groups.specs.Groups.{items_of};
ghost use Rattle.lines.specs.Lines.{text_of, cut};
ghost use Rattle.lines.specs.Texts.{item_text, next_text, row_text, group_text, write_answer, write_after};

use super::line::Line;
use faults::{Fault, Place, Refusal};
use fixed::row::Row;
use groups::group::Group;
use groups::items::Item;

// The fewest bytes of a buffer that is written into, and the most of a line.
pub const LINE: usize = 320;

impl Line {
    // A line with no text.
    pub fn new() -> Line
        ensures { text_of result ≡ [] }
    {
        Line { bytes: Row::new(0) }
    }

    // The text.
    pub fn text(&self) -> &[u8]
        ensures { result.now ≡ text_of self.now }
    {
        self.bytes.all()
    }

    // Puts a text behind the text, as far as the line holds it.
    pub fn put_text(&mut self, text: &[u8])
        ensures { text_of self.new ≡ cut (text_of self.old ++ text.now) }
    {
        self.append(text);
    }

    // Puts a number behind the text, as far as the line holds it. It has at most 20 digits.
    pub fn put_number(&mut self, number: u64)
        ensures after { text_of self.new ≡ cut (text_of self.old ++ decimal number) }
        ensures short { length (decimal number) ≤ 20 }
    {
        self.append_digits(number);
    }

    // Puts a group behind the text, as far as the line holds it.
    pub fn put_group(&mut self, group: &Group)
        ensures { text_of self.new ≡ cut (text_of self.old ++ group_text (items_of group.now)) }
    {
        self.append_items(group.items());
    }

    // Writes the line into a buffer, from its first byte on.
    pub fn write(&self, buffer: &mut [u8]) -> Result<Option<usize>, Fault>
        ensures answer { result ≡ write_answer (Some (text_of self.now)) buffer.old }
        ensures after { buffer.new ≡ write_after (Some (text_of self.now)) buffer.old }
    {
        if buffer.len() < LINE {
            return Err(Refusal::ShortBuffer.at(Place::Nowhere));
        }
        let text = self.text();
        let length = text.len();
        buffer[0..length].copy_from_slice(text);
        Ok(Some(length))
    }
}

impl Line {
    // One byte behind the text, unless the line is full.
    fn push(&mut self, byte: u8)
        ensures { text_of self.new ≡ cut (text_of self.old ++ (byte ∷ [])) }
    {
        let _ = self.bytes.push(byte);
    }

    // A text behind the text, byte by byte. Apart from `put_text` for the same reason as the digits below.
    fn append(&mut self, text: &[u8])
        ensures { text_of self.new ≡ cut (text_of self.old ++ text.now) }
    {
        for byte in text {
            self.push(*byte);
        }
    }

    // The digits of a number behind the text, the front ones first. Apart from `put_number`, whose edit would be refused in the
    // answer here first; by hand, as the library writes no number into memory of one's own.
    fn append_digits(&mut self, number: u64)
        ensures after { text_of self.new ≡ cut (text_of self.old ++ decimal number) }
        ensures short { length (decimal number) ≤ 20 }
    {
        if number < 10 {
            self.push(b'0' + number as u8);
        } else {
            self.append_digits(number / 10);
            self.push(b'0' + (number % 10) as u8);
        }
    }

    // An item behind the text.
    fn append_item(&mut self, item: Item)
        ensures { text_of self.new ≡ cut (text_of self.old ++ item_text item) }
    {
        self.append_digits(u64::from(item.plate));
        self.push(u8::from(item.sign));
    }

    // Items behind the text, each with a space in front.
    fn append_next(&mut self, items: &[Item])
        ensures { text_of self.new ≡ cut (text_of self.old ++ flat_map next_text items.now) }
    {
        for item in items {
            self.push(b' ');
            self.append_item(*item);
        }
    }

    // Items behind the text, with a space between.
    fn append_row(&mut self, items: &[Item])
        ensures { text_of self.new ≡ cut (text_of self.old ++ row_text items.now) }
    {
        if let [first, rest @ ..] = items {
            self.append_item(*first);
            self.append_next(rest);
        }
    }

    // Items in brackets behind the text.
    fn append_items(&mut self, items: &[Item])
        ensures { text_of self.new ≡ cut (text_of self.old ++ group_text items.now) }
    {
        self.push(b'(');
        self.append_row(items);
        self.push(b')');
    }
}
