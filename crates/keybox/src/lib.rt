//! The box: a stream, a strength and eight key slots.

#![tactic(auto)]

mod calls;

ghost use Rattle.std.specs.Prelude.{◌≡◌, ℕ, ◌≤◌, ◌&&◌, List, [], ◌∷◌, length, replicate, is_ok, if◌then◌else◌, Some, IfErr, MatchResult};
ghost use Rattle.refusal.specs.declared.Refusal.TheVariants.{WrongSiv};
ghost use Rattle.hash.specs.Strength.{siv_length};
ghost use Rattle.hs1.specs.Seal.{opened};
ghost use Rattle.hs1.specs.Calls.{OpenedThere};
ghost use Rattle.sealed.specs.Line.{header_of, sealed_line};
ghost use Rattle.sealed.specs.Sheet.{line_of, parts_of, ReadsSealed};
ghost use Rattle.kinds.specs.Held.{Recounts};
ghost use Rattle.book.specs.Keys.{bytes_of, key_of, last_of, empty, slot_at, with_last};
ghost use Rattle.book.specs.Answers.{set_checks, slot_check, answer as answer_of, Asked};
ghost use Rattle.book.specs.Book.{Call, Sealing, setting, clearing, asking, opening, kind_of, hits, good_key};
ghost use Rattle.book.specs.Law.{OpenLaw};
ghost use Rattle.book.specs.Stands.{Stands, Noted};
ghost use Rattle.sheet.specs.Sheet.{nonce_of, sheet_line};
ghost use Rattle.keybox.specs.Opening.{first_checks, sheet_text, Answered, LineAnswered, SlotsAfter};

use book::{Key, Slot, Table};
pub use calls::{Ask, Calls, Clear, Nothing, OneCall, OpenLine, SetKey, Then, open_after};
use hs1::{Cipher, Context};
use kinds::{Kind, Tray, load};
use refusal::Refusal;
use sealed::{Label, SealedParts, Unchecked, Wiped};
use sheet::nonce;
use stream::Stream;

// Unmasks a sheet's text where it stands; refused exactly if the SIV is wrong,
// and then zeros are left there.
fn unmask<S: Stream>(
    cipher: &Cipher<S>,
    key: &Key,
    serial: u32,
    header: &[u8],
    siv: &[u8],
    text: &mut [u8],
) -> Result<(), Refusal>
    requires { (length header.now ≤ 46) × (length siv.now ≡ siv_length cipher.now.strength) × (length text.old ≤ 16384) }
    ensures there { OpenedThere (opened (S.Stream.meaning cipher.now.stream) cipher.now.strength (bytes_of key.now) (nonce_of serial) header.now siv.now text.old) (length text.old) text.new (is_ok result) }
    ensures why { IfErr result (λ w. w ≡ WrongSiv) }
{
    let context = Context {
        key: key.as_bytes(),
        nonce: &nonce(serial),
        header,
    };
    cipher.open_in_place(context, siv, text)
}

// Opens a sheet by a slot of the box into a tray: the checks in their order,
// each refusal leaving the tray as it was.
fn judge<S: Stream, K: Kind>(
    cipher: &Cipher<S>,
    slot: Slot,
    sheet: Unchecked<'_>,
    work: &mut [u8],
    tray: &mut Tray<'_, K::Item>,
) -> Result<usize, Refusal>
    ensures answer { Answered (first_checks cipher.now.strength slot K.Kind.NUMBER (length work.old) (parts_of sheet.entry)) (sheet_text (S.Stream.meaning cipher.now.stream) cipher.now.strength slot (parts_of sheet.entry)) K.Kind.reading tray.old.items.now tray.new.items.now result }
    ensures tray { Recounts tray.old tray.new result }
{
    if sheet.kind() != K::NUMBER {
        return Err(Refusal::OtherKind);
    }
    let key = slot.key.ok_or(Refusal::EmptySlot)?;
    let serial = sheet.serial();
    if serial <= slot.last {
        return Err(Refusal::StaleSerial);
    }
    let SealedParts { header, siv, text } = sheet.into_parts();
    let siv = siv.as_bytes();
    if siv.len() != cipher.strength.siv_len() {
        return Err(Refusal::SivLength);
    }
    let n = text.decode(work)?;
    let text = &mut work[0..n];
    unmask(cipher, &key, serial, header, siv, text)?;
    load::<K>(text, tray)
}

// A box: a stream, a strength, and eight key slots.
#[derive(Drop)]
pub struct KeyBox<S: Stream> {
    cipher: Cipher<S>,
    table: Table,
}

impl<S: Stream> KeyBox<S> {
    // A box with eight empty slots.
    pub fn new(cipher: Cipher<S>) -> KeyBox<S>
        ensures cipher { result.cipher ≡ cipher }
        ensures empty { (s : ℕ) → slot_at result.table.slots s ≡ empty }
        ensures stands { (seal : Sealing) → Stands seal result.table.slots [] }
    {
        KeyBox {
            cipher,
            table: Table::new(),
        }
    }

    // Puts a key into a slot, which then has opened nothing. Checks: 6, 7.
    pub fn set_key(&mut self, slot: u8, key: &[u8]) -> Result<(), Refusal>
        ensures answer { result ≡ answer_of (set_checks slot key.now) }
        ensures kept { self.new.cipher ≡ self.old.cipher }
        ensures key { (s : ℕ) → key_of (slot_at self.new.table.slots s) ≡ (if good_key key.now && hits slot s then Some key.now else key_of (slot_at self.old.table.slots s)) }
        ensures last { (s : ℕ) → last_of (slot_at self.new.table.slots s) ≡ (if good_key key.now && hits slot s then 0 else last_of (slot_at self.old.table.slots s)) }
        ensures noted { (seal : Sealing) → Noted seal self.old.table.slots self.new.table.slots (setting slot key.now ∷ []) }
    {
        self.table.set_key(slot, key)
    }

    // Empties a slot. Check: 6.
    pub fn clear(&mut self, slot: u8) -> Result<(), Refusal>
        ensures answer { result ≡ answer_of (slot_check slot) }
        ensures kept { self.new.cipher ≡ self.old.cipher }
        ensures after { (s : ℕ) → slot_at self.new.table.slots s ≡ (if hits slot s then empty else slot_at self.old.table.slots s) }
        ensures noted { (seal : Sealing) → Noted seal self.old.table.slots self.new.table.slots (clearing slot ∷ []) }
    {
        self.table.clear(slot)
    }

    // The last serial opened from a slot; nothing if it has no key. Check: 6.
    pub fn last_serial(&self, slot: u8) -> Result<Option<u32>, Refusal>
        ensures answer { Asked slot (slot_at self.now.table.slots slot) result }
        ensures noted { (seal : Sealing) → Noted seal self.now.table.slots self.now.table.slots (asking slot ∷ []) }
    {
        self.table.last_serial(slot)
    }

    // Opens a sheet as the kind K into the tray, and uses the sheet up. Checks:
    // 12, 21, 22, 16, 1, 13, 14, 2. The items replace what the tray held, the
    // serial becomes the slot's last, the count is answered. A refusal leaves
    // box and tray as they were. The work buffer is zeros on every way out. It and
    // the tray are lent apart, and used apart.
    pub fn open<K: Kind>(
        &mut self,
        sheet: Unchecked<'_>,
        work: &mut [u8],
        tray: &mut Tray<'_, K::Item>,
    ) -> Result<usize, Refusal>
        ensures kept { self.new.cipher ≡ self.old.cipher }
        ensures answer { Answered (first_checks self.old.cipher.strength (slot_at self.old.table.slots sheet.entry.label.slot) K.Kind.NUMBER (length work.old) (parts_of sheet.entry)) (sheet_text (S.Stream.meaning self.old.cipher.stream) self.old.cipher.strength (slot_at self.old.table.slots sheet.entry.label.slot) (parts_of sheet.entry)) K.Kind.reading tray.old.items.now tray.new.items.now result }
        ensures slots { (s : ℕ) → slot_at self.new.table.slots s ≡ (if is_ok result && hits sheet.entry.label.slot s then with_last (slot_at self.old.table.slots sheet.entry.label.slot) sheet.entry.label.serial else slot_at self.old.table.slots s) }
        ensures tray { Recounts tray.old tray.new result }
        ensures wiped { work.new ≡ replicate (length work.old) 0 }
        ensures noted { Noted (sheet_line (S.Stream.meaning self.old.cipher.stream) self.old.cipher.strength) self.old.table.slots self.new.table.slots (opening (line_of sheet.entry) (kind_of K.Kind.NUMBER K.Kind.reading) (length work.old) (length tray.old.items.now) ∷ []) }
        ensures law { (h : List Call) → Stands (sheet_line (S.Stream.meaning self.old.cipher.stream) self.old.cipher.strength) self.old.table.slots h → OpenLaw (sheet_line (S.Stream.meaning self.old.cipher.stream) self.old.cipher.strength) K.Kind.lawful K.Kind.line K.Kind.NUMBER h (line_of sheet.entry) (length work.old) tray.old.items.now tray.new.items.now result }
    {
        let guard = Wiped { work };
        let Label { slot, serial, .. } = sheet.label();
        let held = self.table.at(slot);
        let count = judge::<S, K>(&self.cipher, held, sheet, &mut guard.work[..], tray)?;
        let next = Slot {
            last: serial,
            ..held
        };
        self.table.put(slot, next);
        Ok(count)
    }

    // Reads any bytes as a sealed line (11) and, if they are one, opens the
    // sheet as `open` does.
    pub fn open_line<K: Kind>(
        &mut self,
        line: &[u8],
        work: &mut [u8],
        tray: &mut Tray<'_, K::Item>,
    ) -> Result<usize, Refusal>
        ensures kept { self.new.cipher ≡ self.old.cipher }
        ensures answer { LineAnswered (S.Stream.meaning self.old.cipher.stream) self.old.cipher.strength self.old.table.slots K.Kind.NUMBER (length work.old) K.Kind.reading line.now tray.old.items.now tray.new.items.now result }
        ensures slots { SlotsAfter line.now self.old.table.slots self.new.table.slots (is_ok result) }
        ensures tray { Recounts tray.old tray.new result }
        ensures wiped { work.new ≡ replicate (length work.old) 0 }
        ensures noted { Noted (sheet_line (S.Stream.meaning self.old.cipher.stream) self.old.cipher.strength) self.old.table.slots self.new.table.slots (opening line.now (kind_of K.Kind.NUMBER K.Kind.reading) (length work.old) (length tray.old.items.now) ∷ []) }
        ensures law { (h : List Call) → Stands (sheet_line (S.Stream.meaning self.old.cipher.stream) self.old.cipher.strength) self.old.table.slots h → OpenLaw (sheet_line (S.Stream.meaning self.old.cipher.stream) self.old.cipher.strength) K.Kind.lawful K.Kind.line K.Kind.NUMBER h line.now (length work.old) tray.old.items.now tray.new.items.now result }
    {
        let wiped = Wiped { work };
        let sheet = Unchecked::read(line)?;
        self.open::<K>(sheet, &mut wiped.work[..], tray)
    }
}
