//! Every refusal of the project, with the values that go with it.
//!
//! A call that cannot do what it was asked answers with one of these and
//! changes nothing but what its own contract names.

#![tactic(auto)]

ghost use Rattle.std.specs.Prelude.{◌≡◌};
ghost use Rattle.refusal.specs.Number.{number_of};
ghost use Rattle.refusal.specs.Party.{party_of};

// Why a call refuses.
#[derive(Clone, Copy, PartialEq, Eq, Debug)]
pub enum Refusal {
    // the work buffer is shorter than the sheet's text
    ShortWork,
    // the tray has fewer places than the sheet has items
    SmallTray,
    // place plus length lie past the stream's end
    PastStream,
    // an output or a SIV buffer is too short for what is written there
    ShortOutput,
    // no suite has that number, or ChaCha has not that round count
    UnknownSuite,
    // a slot number above 7
    NoSlot,
    // a key of no bytes or of more than 32
    KeyLength,
    // the roll has given its last serial
    RollUsedUp,
    // an item that its kind does not allow; the index of the first such, from 0
    UnlawfulItem { index: usize },
    // a sheet of too many items or of too many bytes
    LargeSheet,
    // the bytes are no sealed line; the column of the fault, from 1
    NoSealedLine { column: usize },
    // the sheet is of another kind than the one asked for
    OtherKind,
    // the SIV is not the one that sealing gives
    WrongSiv,
    // the text is no sheet: its first faulty line, from 1, and the column of
    // the fault there, from 1, or 0 for a line that no item of the kind has
    NoSheet { line: usize, column: usize },
    // a header, a text or a ciphertext is too long for a bare call
    TooLong,
    // the SIV has another length than the strength's
    SivLength,
    // a nonce that has not 12 bytes
    NonceLength,
    // no key is in the slot
    EmptySlot,
    // the serial is not above the last one opened from the slot
    StaleSerial,
}

// Who makes a call refuse, and so who has to mend it.
#[derive(Clone, Copy, PartialEq, Eq, Debug)]
pub enum Party {
    // the program that made the call
    Caller,
    // whoever sent the sheet, or carried it
    Sender,
    // the person at the table
    Operator,
}

impl Refusal {
    // The number that stands for the refusal in printed answers and in C.
    pub fn number(self) -> u8
        ensures { result ≡ number_of self }
    {
        match self {
            Refusal::ShortWork => 1,
            Refusal::SmallTray => 2,
            Refusal::PastStream => 3,
            Refusal::ShortOutput => 4,
            Refusal::UnknownSuite => 5,
            Refusal::NoSlot => 6,
            Refusal::KeyLength => 7,
            Refusal::RollUsedUp => 8,
            Refusal::UnlawfulItem { index: _ } => 9,
            Refusal::LargeSheet => 10,
            Refusal::NoSealedLine { column: _ } => 11,
            Refusal::OtherKind => 12,
            Refusal::WrongSiv => 13,
            Refusal::NoSheet { line: _, column: _ } => 14,
            Refusal::TooLong => 15,
            Refusal::SivLength => 16,
            Refusal::NonceLength => 17,
            Refusal::EmptySlot => 21,
            Refusal::StaleSerial => 22,
        }
    }

    // Who is at fault.
    pub fn party(self) -> Party
        ensures { result ≡ party_of self }
    {
        match self {
            Refusal::NoSealedLine { column: _ }
            | Refusal::OtherKind
            | Refusal::WrongSiv
            | Refusal::NoSheet { line: _, column: _ }
            | Refusal::SivLength => Party::Sender,
            Refusal::EmptySlot | Refusal::StaleSerial => Party::Operator,
            _ => Party::Caller,
        }
    }
}
