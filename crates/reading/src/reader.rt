// Reading from left to right: each function reads what is due, or says which fault is there.
ghost use Rattle.std.specs.Prelude.{◌≡◌, ◌+◌, ◌<◌, ◌≤◌, true, length, IfSome, IfOk};
ghost use Rattle.groups.specs.Groups.{items_of, takes};
ghost use Rattle.groups.specs.Items.{is_plate};
ghost use Rattle.reading.specs.Examples.{Examples};
ghost use Rattle.reading.specs.Grammar.{RightAnswer, RightNumber};
ghost use Rattle.reading.specs.Numbers.{plate_of};
ghost use Rattle.reading.specs.Reading.{number_due, plate_due, sign_due, end_due, more_due, open_due, read_items, read_group, read_plate, held_by};
ghost use Rattle.reading.specs.Tokens.{token_digits, token_place, token_symbol};

use super::digits::Digits;
use super::rest::Rest;
use super::tokens::Token;
use faults::{Refusal, TextFault};
use groups::group::Group;
use groups::items::{Item, Sign};
use groups::methods::HIGHEST_PLATE;

// The most items of a group that is read.
const MOST_READ: usize = 8;

// The plate that digits spell: no zero in front, and not above the highest plate.
#[tactic(auto, using(crate::proofs::Values::plate_rules))]
fn plate_of(digits: Digits) -> Option<u32>
    ensures value { result ≡ plate_of digits.entry.text.now }
    ensures plate { IfSome result (λ p. is_plate p ≡ true) }
{
    if let [] | [b'0', ..] = digits.text {
        return None;
    }
    let mut value: u32 = 0;
    for digit in digits.text {
        value = value * 10 + u32::from(*digit - b'0');
        if value > HIGHEST_PLATE {
            return None;
        }
    }
    Some(value)
}

// The number of a plate is due.
fn number_due(token: &Token) -> Result<u32, TextFault>
    ensures value { result ≡ number_due (token_place token.now) (token_digits token.now) }
    ensures plate { IfOk result (λ p. is_plate p ≡ true) }
{
    plate_of(token.digits()).ok_or(Refusal::Number.at_byte(token.place()))
}

// The number of an item is due, where there is room for so many items behind those of the group.
fn plate_due(token: &Token, group: &Group, room: usize) -> Result<u32, TextFault>
    requires { length (items_of group.now) + room ≤ 8 }
    ensures value { result ≡ plate_due room (items_of group.now) (token_place token.now) (token_digits token.now) }
    ensures item { IfOk result (λ p. (0 < room) × (takes (items_of group.now) p ≡ true)) }
{
    let plate = number_due(token)?;
    if room == 0 {
        return Err(Refusal::Ninth.at_byte(token.place()));
    }
    if group.sign_of(plate).is_some() {
        return Err(Refusal::Repeated.at_byte(token.place()));
    }
    Ok(plate)
}

// A sign is due.
fn sign_due(token: &Token) -> Result<Sign, TextFault>
    ensures { result ≡ sign_due (token_place token.now) (token_symbol token.now) }
{
    match token.symbol() {
        Some('+') => Ok(Sign::Plus),
        Some('-') => Ok(Sign::Minus),
        Some('*') => Ok(Sign::Star),
        _ => Err(Refusal::Mark.at_byte(token.place())),
    }
}

// An opening bracket is due.
fn open_due(token: &Token) -> Result<(), TextFault>
    ensures { result ≡ open_due (token_place token.now) (token_symbol token.now) }
{
    match token.symbol() {
        Some('(') => Ok(()),
        _ => Err(Refusal::Mark.at_byte(token.place())),
    }
}

// The end is due.
fn end_due(rest: Rest) -> Result<(), TextFault>
    ensures { result ≡ end_due rest.entry.at rest.entry.text.now }
{
    match rest.token() {
        Token::End { .. } => Ok(()),
        Token::Number { at, .. } | Token::Mark { at, .. } => Err(Refusal::Mark.at_byte(at)),
    }
}

// A space before one more item is due, or the closing bracket and then the end. Whether one more item is due.
fn more_due(rest: Rest) -> Result<bool, TextFault>
    ensures { result ≡ more_due rest.entry.at rest.entry.text.now }
{
    let token = rest.token();
    match token.symbol() {
        Some(' ') => Ok(true),
        Some(')') => {
            end_due(rest.after(1))?;
            Ok(false)
        }
        _ => Err(Refusal::Mark.at_byte(token.place())),
    }
}

// Reads items to the closing bracket and the end, behind those of the group, of which there is room for so many.
#[tactic(auto, using(crate::proofs::Items::item_rules))]
fn read_items(mut group: Group, room: usize, rest: Rest) -> Result<Group, TextFault>
    requires { length (items_of group) + room ≤ 8 }
    ensures { held_by result ≡ read_items room (items_of group) rest.entry.at rest.entry.text.now }
{
    let number = rest.token();
    let plate = plate_due(&number, &group, room)?;
    let behind_number = rest.after(number.digits().text.len());
    let sign = sign_due(&behind_number.token())?;
    let behind_sign = behind_number.after(1);
    let more = more_due(behind_sign)?;
    let _ = group.insert(Item { plate, sign });
    if more {
        read_items(group, room - 1, behind_sign.after(1))
    } else {
        Ok(group)
    }
}

// Reads an opening bracket and what stands behind it, to the end. Apart from `read_group`, which is proved from this
// contract alone: `right` takes a proof by hand, since no tactic makes its records.
fn whole_group(rest: Rest) -> Result<Group, TextFault>
    ensures value { held_by result ≡ read_group rest.entry.at rest.entry.text.now }
    ensures right { RightAnswer rest.entry.at rest.entry.text.now (held_by result) }
{
    open_due(&rest.token())?;
    read_items(Group::new(), MOST_READ, rest.after(1))
}

// Reads a number and the end. Apart from `read_plate` for the same reason.
fn whole_number(rest: Rest) -> Result<u32, TextFault>
    ensures value { result ≡ read_plate rest.entry.at rest.entry.text.now }
    ensures right { RightNumber rest.entry.at rest.entry.text.now result }
{
    let number = rest.token();
    let plate = number_due(&number)?;
    end_due(rest.after(number.digits().text.len()))?;
    Ok(plate)
}

// Reads a group. The text's first byte stands at `start`, from which places count.
pub fn read_group(text: &[u8], start: usize) -> Result<Group, TextFault>
    ensures value { held_by result ≡ read_group start text.now }
    ensures right { RightAnswer start text.now (held_by result) }
{
    let group = Rest { text, at: start };
    whole_group(group)
}

// Reads the number of a plate. The text's first byte stands at `start`, from which places count.
pub fn read_plate(text: &[u8], start: usize) -> Result<u32, TextFault>
    ensures value { result ≡ read_plate start text.now }
    ensures right { RightNumber start text.now result }
{
    let number = Rest { text, at: start };
    whole_number(number)
}

// Carries the worked examples: no reader that keeps the promise of `read_group` answers one of them otherwise.
#[tactic(auto, unfolding(crate::specs::Reading::read_items))]
pub fn examples_stand()
    ensures { Examples }
{}
