//! Sealing the items of a sheet.

ghost use Rattle.std.specs.Prelude.{◌≡◌, ℕ, ◌<◌, ◌≤◌, length, take, replicate, IfOk, IfErr, None};
ghost use Rattle.book.specs.Answers.{set_checks};
ghost use Rattle.book.specs.Keys.{bytes_of};
ghost use Rattle.book.specs.Law.{Seals};
ghost use Rattle.kinds.specs.Text.{text_of};
ghost use Rattle.sealed.specs.Line.{Lawful, LawfulHeader, Parts, SealedLine, sealed_line};
ghost use Rattle.sealed.specs.Writes.{Writes, room_refusal};
ghost use Rattle.sheet.specs.Sheet.{sheet_line};
ghost use Rattle.sheet.specs.Sealing.{OneList, ReadsAs, SealedAs, TextWritten};
ghost use Rattle.sheet.specs.Refused.{read_back_of, refusal_of};

use crate::nonce;
use book::{Key, SLOTS};
use hs1::{Cipher, Context};
use kinds::{Kind, write_text};
use refusal::Refusal;
use roll::Ticket;
use sealed::{LONGEST_HEADER, LONGEST_SIV, Label, Unchecked, Wiped};
use stream::Stream;

// Whom a sheet is for: a slot of the box, and the key that stands there.
#[derive(Clone, Copy)]
pub struct Recipient<'a> {
    pub slot: u8,
    pub key: &'a [u8],
}

// A sealing that was refused: why, and the ticket, which is not used up.
pub struct Unsealed {
    pub ticket: Ticket,
    pub why: Refusal,
}

impl Unsealed {
    // Gives the ticket up, so that its serial is never used, and says why the
    // sealing was refused.
    pub fn give_up(self) -> Refusal
        ensures { result ≡ self.why }
    {
        let Unsealed { ticket, why } = self;
        let _unused = ticket.spend();
        why
    }
}

// Writes the text of a sheet into a work buffer and answers its length; a
// buffer that is too short is refused as such.
fn write_work<K: Kind>(items: &[K::Item], work: &mut [u8]) -> Result<usize, Refusal>
    ensures { TextWritten K.Kind.lawful K.Kind.line items.now work.old work.new result }
{
    write_text::<K>(items, work).map_err(|why| match why {
        Refusal::ShortOutput => Refusal::ShortWork,
        other => other,
    })
}

// Masks a text where it stands and writes its sealed line; refused exactly if
// the output is shorter than the line.
fn seal_text<S: Stream>(
    cipher: &Cipher<S>,
    label: Label,
    key: &Key,
    text: &mut [u8],
    out: &mut [u8],
) -> Result<usize, Refusal>
    requires { (LawfulHeader label.slot label.kind label.serial) × (length text.old ≤ 16384) }
    ensures { let line = sheet_line (S.Stream.meaning cipher.now.stream) cipher.now.strength label.slot label.kind label.serial (bytes_of key.now) text.old in Writes (room_refusal None (length line) (length out.old)) line out.old out.new result }
{
    let mut header = [0; LONGEST_HEADER];
    let len = label.write_header(&mut header)?;
    let nonce = nonce(label.serial);
    let context = Context {
        key: key.as_bytes(),
        nonce: &nonce,
        header: &header[..len],
    };
    let mut siv = [0; LONGEST_SIV];
    cipher.seal_in_place(context, text, &mut siv)?;
    label.write_line(&siv[..cipher.strength.siv_len()], text, out)
}

// Seals items with a serial: the checks in their order, each refusal leaving
// the output as it was.
fn seal_items<S: Stream, K: Kind>(
    cipher: &Cipher<S>,
    to: Recipient<'_>,
    serial: u32,
    items: &[K::Item],
    work: &mut [u8],
    out: &mut [u8],
) -> Result<usize, Refusal>
    requires { 0 < serial }
    ensures { SealedAs K.Kind.lawful K.Kind.line (set_checks to.entry.slot to.entry.key.now) items.now (sheet_line (S.Stream.meaning cipher.now.stream) cipher.now.strength to.entry.slot K.Kind.NUMBER serial to.entry.key.now (text_of K.Kind.line items.now)) (length work.old) out.old out.new result }
{
    // As the box checks a slot, whose check is its own.
    if to.slot >= SLOTS {
        return Err(Refusal::NoSlot);
    }
    let key = Key::new(to.key).ok_or(Refusal::KeyLength)?;
    let len = write_work::<K>(items, work)?;
    let label = Label {
        slot: to.slot,
        kind: K::NUMBER,
        serial,
    };
    seal_text(cipher, label, &key, &mut work[..len], out)
}

// Seals the items of a sheet for a slot, under a key, with the serial of a
// ticket: writes the sealed line to the front of `out` and answers its length.
// Refused are, in this order, a slot above 7 (6), a key that has not 1 to 32
// bytes (7), the first unlawful item (9), more than 1,024 items or 16,384 bytes
// (10), a work buffer shorter than the text (1), an output shorter than the line
// (4); then the ticket is handed back and `out` stays as it was. The work buffer
// is zeros on every way out. The two buffers are lent apart, and used apart.
pub fn seal<S: Stream, K: Kind>(
    cipher: &Cipher<S>,
    to: Recipient<'_>,
    ticket: Ticket,
    items: &[K::Item],
    work: &mut [u8],
    out: &mut [u8],
) -> Result<usize, Unsealed>
    ensures answer { SealedAs K.Kind.lawful K.Kind.line (set_checks to.entry.slot to.entry.key.now) items.now (sheet_line (S.Stream.meaning cipher.now.stream) cipher.now.strength to.entry.slot K.Kind.NUMBER ticket.serial to.entry.key.now (text_of K.Kind.line items.now)) (length work.old) out.old out.new (refusal_of result) }
    ensures back { IfErr result (λ u. u.ticket ≡ ticket) }
    ensures wiped { work.new ≡ replicate (length work.old) 0 }
    ensures seals { IfOk result (λ n. Seals (sheet_line (S.Stream.meaning cipher.now.stream) cipher.now.strength) K.Kind.lawful K.Kind.line K.Kind.NUMBER to.entry.slot ticket.serial to.entry.key.now (take n out.new) items.now) }
    ensures reads { IfOk result (λ n. ReadsAs (take n out.new) to.entry.slot K.Kind.NUMBER ticket.serial) }
    ensures one { OneList (sheet_line (S.Stream.meaning cipher.now.stream) cipher.now.strength) K.Kind.lawful K.Kind.line K.Kind.NUMBER }
{
    let guard = Wiped { work };
    let serial = ticket.serial();
    // not `map_err`: no closure may hold a ticket, which is never let go unspent
    match seal_items::<S, K>(cipher, to, serial, items, &mut guard.work[..], out) {
        Ok(len) => {
            let _used = ticket.spend();
            Ok(len)
        }
        Err(why) => Err(Unsealed { ticket, why }),
    }
}

// Seals the items of a sheet, as `seal` does, and reads the line back: what the
// sheet tells is the slot, the kind and the serial that it was sealed with, and
// only the sealing can refuse.
pub fn seal_and_read<S: Stream, K: Kind>(
    cipher: &Cipher<S>,
    to: Recipient<'_>,
    ticket: Ticket,
    items: &[K::Item],
    work: &mut [u8],
    out: &mut [u8],
) -> Result<Label, Unsealed>
    ensures answer { let line = sheet_line (S.Stream.meaning cipher.now.stream) cipher.now.strength to.entry.slot K.Kind.NUMBER ticket.serial to.entry.key.now (text_of K.Kind.line items.now) in SealedAs K.Kind.lawful K.Kind.line (set_checks to.entry.slot to.entry.key.now) items.now line (length work.old) out.old out.new (read_back_of (length line) result) }
    ensures label { IfOk result (λ t. (t.slot ≡ to.entry.slot) × (t.kind ≡ K.Kind.NUMBER) × (t.serial ≡ ticket.serial)) }
    ensures back { IfErr result (λ u. u.ticket ≡ ticket) }
    ensures wiped { work.new ≡ replicate (length work.old) 0 }
{
    let len = seal::<S, K>(cipher, to, ticket, items, work, out)?;
    Ok(read_label(&out[..len]))
}

// What the sheet tells that is read from a line.
fn read_label(line: &[u8]) -> Label
    requires { SealedLine line.now }
    ensures { (p : Parts) → Lawful p → line.now ≡ sealed_line p → (result.slot ≡ p.slot) × (result.kind ≡ p.kind) × (result.serial ≡ p.serial) }
{
    let sheet = Unchecked::read(line).unwrap();
    sheet.label()
}
