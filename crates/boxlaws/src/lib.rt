//! Short laws of the box, each on a function that goes through its calls, for
//! every stream, kind and strength; and laws of the book that they rest on. Line,
//! work buffer and tray are handed on as the box takes them.

#![tactic(auto)]

ghost use Rattle.std.specs.Prelude.{◌≡◌, true, false, List, length, is_ok, Err};
ghost use Rattle.refusal.specs.declared.Refusal.TheVariants.{StaleSerial};
ghost use Rattle.book.specs.Book.{Call, opening, kind_of};
ghost use Rattle.book.specs.Stands.{Stands};
ghost use Rattle.kinds.specs.Text.{text_of};
ghost use Rattle.sheet.specs.Sheet.{sheet_line};
ghost use Rattle.keybox.specs.Opening.{LineAnswered};
ghost use Rattle.boxlaws.specs.Opens.{ComesOut, NoKeyAnswered, OpensAnew};
ghost use Rattle.boxlaws.specs.Keeps.{BookLaws, Unheard};
ghost use Rattle.boxlaws.specs.Twice.{AnsweredTwice};

use hs1::Cipher;
use keybox::{Calls, Clear, KeyBox, Nothing, SetKey, Then, open_after};
use kinds::{Kind, Tray};
use refusal::Refusal;
use roll::Roll;
use sheet::{Recipient, Unsealed, seal};
use stream::Stream;

// Gives a line to a new box: it is refused, whatever the line.
pub fn open_with_no_key<S: Stream + Drop, K: Kind>(
    cipher: Cipher<S>,
    line: &[u8],
    work: &mut [u8],
    tray: &mut Tray<'_, K::Item>,
) -> Result<usize, Refusal>
    ensures refused { is_ok result ≡ false }
    ensures answer { NoKeyAnswered K.Kind.NUMBER line.now result }
{
    let mut empty = KeyBox::new(cipher);
    empty.open_line::<K>(line, work, tray)
}

// After any calls, clears a slot, sets a key there and gives the box a line:
// what was sealed under that key opens, with an old serial too.
pub fn open_after_reset<S: Stream + Drop, K: Kind, P: Calls<S>>(
    cipher: Cipher<S>,
    before: P,
    to: Recipient<'_>,
    line: &[u8],
    work: &mut [u8],
    tray: &mut Tray<'_, K::Item>,
) -> Result<usize, Refusal>
    ensures { OpensAnew (sheet_line (S.Stream.meaning cipher.stream) cipher.strength) K.Kind.lawful K.Kind.line K.Kind.NUMBER to.entry.slot to.entry.key.now line.now (length work.old) tray.old.items.now tray.new.items.now result }
{
    let Recipient { slot, key } = to;
    let cleared = Then {
        before,
        call: Clear { slot },
    };
    let calls = Then {
        before: cleared,
        call: SetKey { slot, key },
    };
    open_after::<_, K, _>(cipher, calls, line, work, tray)
}

// Seals items with the serial 1 and gives the line to a new box with that key:
// the items come out.
pub fn seal_then_open<S: Stream + Drop, K: Kind>(
    cipher: Cipher<S>,
    to: Recipient<'_>,
    items: &[K::Item],
    work: &mut [u8],
    out: &mut [u8],
    tray: &mut Tray<'_, K::Item>,
) -> Result<usize, Refusal>
    ensures { ComesOut K.Kind.lawful K.Kind.line to.entry.slot to.entry.key.now (sheet_line (S.Stream.meaning cipher.stream) cipher.strength to.entry.slot K.Kind.NUMBER 1 to.entry.key.now (text_of K.Kind.line items.now)) (length work.old) (length out.old) items.now tray.old.items.now tray.new.items.now result }
{
    let ticket = Roll::new(0).draw()?;
    let sealed = seal::<_, K>(&cipher, to, ticket, items, work, out);
    let len = sealed.map_err(Unsealed::give_up)?;
    open_after_reset::<_, K, _>(cipher, Nothing, to, &out[..len], work, tray)
}

// What a box answers to a line that it is given twice.
#[derive(Clone, Copy)]
pub struct Twice {
    pub first: Result<usize, Refusal>,
    pub second: Result<usize, Refusal>,
}

// Gives a line to a box twice, one time after the other: if it opened, it is
// refused as a replay.
pub fn open_twice<S: Stream, K: Kind>(
    b: &mut KeyBox<S>,
    line: &[u8],
    work: &mut [u8],
    tray: &mut Tray<'_, K::Item>,
) -> Twice
    ensures answers { AnsweredTwice (S.Stream.meaning b.old.cipher.stream) b.old.cipher.strength b.old.table.slots K.Kind.NUMBER (length work.old) K.Kind.reading line.now tray.old.items.now tray.new.items.now result.first result.second }
    ensures replay { is_ok result.first ≡ true → result.second ≡ Err StaleSerial }
{
    let first = b.open_line::<K>(line, work, tray);
    let second = b.open_line::<K>(line, work, tray);
    Twice { first, second }
}

// Gives a line to a box: an opening that is refused leaves the book as it was.
pub fn open_or_leave<S: Stream, K: Kind>(
    b: &mut KeyBox<S>,
    line: &[u8],
    work: &mut [u8],
    tray: &mut Tray<'_, K::Item>,
) -> Result<usize, Refusal>
    ensures answer { LineAnswered (S.Stream.meaning b.old.cipher.stream) b.old.cipher.strength b.old.table.slots K.Kind.NUMBER (length work.old) K.Kind.reading line.now tray.old.items.now tray.new.items.now result }
    ensures unheard { is_ok result ≡ false → (h : List Call) → Stands (sheet_line (S.Stream.meaning b.old.cipher.stream) b.old.cipher.strength) b.old.table.slots h → Unheard (sheet_line (S.Stream.meaning b.old.cipher.stream) b.old.cipher.strength) h (opening line.now (kind_of K.Kind.NUMBER K.Kind.reading) (length work.old) (length tray.old.items.now)) }
{
    b.open_line::<K>(line, work, tray)
}

// The laws of the book, for any stream and strength.
pub fn book_laws<S: Stream>(_cipher: &Cipher<S>)
    ensures { BookLaws (sheet_line (S.Stream.meaning _cipher.now.stream) _cipher.now.strength) }
{}
