//! Lists of calls that can be played on a box, and the law of the box over
//! them with nothing to compose.

ghost use Rattle.std.specs.Prelude.{◌≡◌, List, [], ◌∷◌, length, vec_len};
ghost use Rattle.book.specs.Book.{Call, setting, clearing, asking, opening, kind_of};
ghost use Rattle.book.specs.Law.{OpenLaw};
ghost use Rattle.book.specs.Stands.{Noted};
ghost use Rattle.sheet.specs.Sheet.{sheet_line};

use crate::KeyBox;
use hs1::Cipher;
use kinds::{Kind, Tray};
use refusal::Refusal;
use stream::Stream;

// One call that can be made on a box.
pub trait OneCall<S: Stream> {
    // the call, as the book knows it
    ghost call: { Self → Call };

    // Makes the call.
    fn make(self, b: &mut KeyBox<S>)
        ensures kept { b.new.cipher ≡ b.old.cipher }
        ensures noted { Noted (sheet_line (S.Stream.meaning b.old.cipher.stream) b.old.cipher.strength) b.old.table.slots b.new.table.slots (call self ∷ []) };
}

// A list of calls, newest first, that can be played on a box. A type and no
// closure, since the type says which calls the book has.
pub trait Calls<S: Stream> {
    // the calls, as the book knows them
    ghost calls: { Self → List Call };

    // Makes the calls, the oldest first.
    fn play(self, b: &mut KeyBox<S>)
        ensures kept { b.new.cipher ≡ b.old.cipher }
        ensures noted { Noted (sheet_line (S.Stream.meaning b.old.cipher.stream) b.old.cipher.strength) b.old.table.slots b.new.table.slots (calls self) };
}

// No call at all.
#[derive(Drop)]
pub struct Nothing;

impl<S: Stream> Calls<S> for Nothing {
    ghost calls = { λ _. [] };

    fn play(self, _b: &mut KeyBox<S>) {}
}

// A call after the calls `before`.
#[derive(Drop)]
pub struct Then<P, C> {
    pub before: P,
    pub call: C,
}

impl<S: Stream, P: Calls<S>, C: OneCall<S>> Calls<S> for Then<P, C> {
    ghost calls = { λ c. C.OneCall.call c.call ∷ P.Calls.calls c.before };

    fn play(self, b: &mut KeyBox<S>) {
        let Then { before, call } = self;
        before.play(b);
        call.make(b);
    }
}

// A key is set.
#[derive(Drop)]
pub struct SetKey<'a> {
    pub slot: u8,
    pub key: &'a [u8],
}

impl<'a, S: Stream> OneCall<S> for SetKey<'a> {
    ghost call = { λ c. setting c.slot c.key.now };

    fn make(self, b: &mut KeyBox<S>) {
        let _ = b.set_key(self.slot, self.key);
    }
}

// A slot is cleared.
#[derive(Drop)]
pub struct Clear {
    pub slot: u8,
}

impl<S: Stream> OneCall<S> for Clear {
    ghost call = { λ c. clearing c.slot };

    fn make(self, b: &mut KeyBox<S>) {
        let _ = b.clear(self.slot);
    }
}

// A slot is asked for its last serial.
#[derive(Drop)]
pub struct Ask {
    pub slot: u8,
}

impl<S: Stream> OneCall<S> for Ask {
    ghost call = { λ c. asking c.slot };

    fn make(self, b: &mut KeyBox<S>) {
        let _ = b.last_serial(self.slot);
    }
}

// A line is given to the box as the kind K, with these buffers.
pub struct OpenLine<'a, K: Kind> {
    pub line: &'a [u8],
    pub work: Vec<u8>,
    pub places: Vec<K::Item>,
}

impl<'a, S: Stream, K: Kind> OneCall<S> for OpenLine<'a, K> {
    ghost call = { λ c. opening c.line.now (kind_of K.Kind.NUMBER K.Kind.reading) (vec_len c.work) (vec_len c.places) };

    fn make(self, b: &mut KeyBox<S>) {
        let OpenLine {
            line,
            mut work,
            mut places,
        } = self;
        let mut tray = Tray::new(&mut places[..]);
        let _ = b.open_line::<K>(line, &mut work[..], &mut tray);
    }
}

// Makes a new box, plays any calls on it, and gives it one more line: what it
// answers is by the book of those calls alone.
pub fn open_after<S: Stream + Drop, K: Kind, P: Calls<S>>(
    cipher: Cipher<S>,
    before: P,
    line: &[u8],
    work: &mut [u8],
    tray: &mut Tray<'_, K::Item>,
) -> Result<usize, Refusal>
    ensures { OpenLaw (sheet_line (S.Stream.meaning cipher.stream) cipher.strength) K.Kind.lawful K.Kind.line K.Kind.NUMBER (P.Calls.calls before) line.now (length work.old) tray.old.items.now tray.new.items.now result }
{
    let mut b = KeyBox::new(cipher);
    before.play(&mut b);
    b.open_line::<K>(line, work, tray)
}
