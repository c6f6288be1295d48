// Faults: what is refused, by which layer, and where. specs/Faults.antt gives each refusal its number and its layer.
#![tactic(auto)]

ghost use Rattle.std.specs.Prelude.{◌≡◌};
ghost use Rattle.faults.specs.Faults.{number_of, layer_of, fault_of, text_fault_of, sheet_record, journal_record};
ghost use Rattle.faults.specs.declared.SheetFault.TheVariants as sheet;
ghost use Rattle.faults.specs.declared.JournalFault.TheVariants as journal;

// What is refused. Each has the number that people know it by.
#[derive(Clone, Copy)]
pub enum Refusal {
    // a journal line that begins with none of the journal's words
    Word = 1,
    // no number of a plate
    Number,
    // another byte, or the end, where a sign, a space, a bracket or the end is due
    Mark,
    // a plate named before in the same group
    Repeated,
    // a ninth item
    Ninth,
    // a plate not above the highest ever fitted
    NotAbove,
    // no space for another lever
    FrameFull,
    // a plate that is not fitted
    NotFitted,
    // a plate that a line in force names
    Named,
    // a line that is in force already
    InForce,
    // no space for another line
    LinesFull,
    // a line that would leave no possible setting
    NoSetting,
    // a table of too many groups
    TableFull,
    // a line that is not in force
    NotInForce,
    // a group that the crew cannot manage
    Unmanageable,
    // a buffer with too few bytes
    ShortBuffer,
}

// The layer that refuses.
#[derive(Clone, Copy, PartialEq, Eq)]
pub enum Layer {
    Text,
    Frame,
    Sheet,
    Journal,
}

// Where the fault is: nowhere in particular, at a byte counted from 0, or at a plate.
#[derive(Clone, Copy, PartialEq, Eq)]
pub enum Place {
    Nowhere,
    Byte(usize),
    Plate(u32),
}

// A fault: the refusal's number, the layer that refuses, and the place.
#[derive(Clone, Copy, PartialEq, Eq)]
pub struct Fault {
    // any number: the customers' record has a number here, and an answer line can tell each one
    pub number: u8,
    pub layer: Layer,
    pub place: Place,
}

// A fault found while reading a text.
#[derive(Clone, Copy, PartialEq, Eq)]
pub struct TextFault {
    pub fault: Fault,
}

// A fault of a call on the sheet: a text's fault, whole, or one of the call's own.
#[derive(Clone, Copy)]
pub enum SheetFault {
    Reading(TextFault),
    Own(Fault),
}

// A fault of the journal: a text's or a sheet's fault, whole, or one of the journal's own.
#[derive(Clone, Copy)]
pub enum JournalFault {
    Reading(TextFault),
    Refused(SheetFault),
    Own(Fault),
}

impl Refusal {
    // The number that the refusal is known by.
    pub fn number(self) -> u8
        ensures { result ≡ number_of self }
    {
        self as u8
    }

    // The fault of this refusal at a place.
    pub fn at(self, place: Place) -> Fault
        ensures { result ≡ fault_of self place }
    {
        Fault {
            number: self.number(),
            layer: self.layer(),
            place,
        }
    }

    // The layer that refuses: each has a range of the numbers, as people know them.
    fn layer(self) -> Layer
        ensures { result ≡ layer_of (number_of self) }
    {
        match self.number() {
            0..=5 => Layer::Text,
            6..=9 => Layer::Frame,
            10..=15 => Layer::Sheet,
            _ => Layer::Journal,
        }
    }

    // The fault of this refusal at a byte of a text.
    pub fn at_byte(self, byte: usize) -> TextFault
        ensures { result ≡ text_fault_of self byte }
    {
        let fault = self.at(Place::Byte(byte));
        TextFault { fault }
    }
}

// The conversions by `From` are written one by one: a derive or a macro writes no `from_gives`, which says what each makes.
impl From<TextFault> for SheetFault {
    ghost from_gives = { λ x y. y ≡ sheet.Reading x };

    fn from(fault: TextFault) -> SheetFault {
        SheetFault::Reading(fault)
    }
}

impl From<Fault> for SheetFault {
    ghost from_gives = { λ x y. y ≡ sheet.Own x };

    fn from(fault: Fault) -> SheetFault {
        SheetFault::Own(fault)
    }
}

impl From<TextFault> for JournalFault {
    ghost from_gives = { λ x y. y ≡ journal.Reading x };

    fn from(fault: TextFault) -> JournalFault {
        JournalFault::Reading(fault)
    }
}

impl From<SheetFault> for JournalFault {
    ghost from_gives = { λ x y. y ≡ journal.Refused x };

    fn from(fault: SheetFault) -> JournalFault {
        JournalFault::Refused(fault)
    }
}

impl From<Fault> for JournalFault {
    ghost from_gives = { λ x y. y ≡ journal.Own x };

    fn from(fault: Fault) -> JournalFault {
        JournalFault::Own(fault)
    }
}

// The one record of a text's fault.
impl From<TextFault> for Fault {
    ghost from_gives = { λ x y. y ≡ x.fault };

    fn from(fault: TextFault) -> Fault {
        fault.fault
    }
}

// The one record of a sheet's fault.
impl From<SheetFault> for Fault {
    ghost from_gives = { λ x y. y ≡ sheet_record x };

    fn from(fault: SheetFault) -> Fault {
        match fault {
            SheetFault::Reading(text) => text.into(),
            SheetFault::Own(own) => own,
        }
    }
}

// The one record of a journal's fault.
impl From<JournalFault> for Fault {
    ghost from_gives = { λ x y. y ≡ journal_record x };

    fn from(fault: JournalFault) -> Fault {
        match fault {
            JournalFault::Reading(text) => text.into(),
            JournalFault::Refused(refused) => refused.into(),
            JournalFault::Own(own) => own,
        }
    }
}
