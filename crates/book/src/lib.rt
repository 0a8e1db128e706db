//! Eight key slots, and the book of calls by which it is said what they hold.

#![tactic(auto)]

mod key;

ghost use Rattle.std.specs.Prelude.{◌≡◌, ℕ, ◌<◌, ◌≤◌, true, false, ◌&&◌, [], ◌∷◌, length, if◌then◌else◌, Some, None, MatchOption};
ghost use Rattle.book.specs.Book.{Sealing, setting, clearing, asking, hits, good_key};
ghost use Rattle.book.specs.Keys.{bytes_of, key_of, last_of, empty, slot_at};
ghost use Rattle.book.specs.Stands.{Stands, Noted};
ghost use Rattle.book.specs.Answers.{set_checks, slot_check, answer, Asked};

pub use key::Key;
use refusal::Refusal;

// How many slots a box has.
pub const SLOTS: u8 = 8;
// How many bytes a key has at most.
pub const LONGEST_KEY: usize = 32;

impl Key {
    // The key of these bytes, if it has 1 to 32 of them.
    pub fn new(bytes: &[u8]) -> Option<Key>
        ensures { MatchOption result (good_key bytes.now ≡ false) (λ k. (good_key bytes.now ≡ true) × (bytes_of k ≡ bytes.now)) }
    {
        let len = bytes.len();
        if len == 0 || len > LONGEST_KEY {
            return None;
        }
        let mut all = [0; LONGEST_KEY];
        all[..len].copy_from_slice(bytes);
        Some(Key { bytes: all, len })
    }

    // The key's bytes.
    pub fn as_bytes(&self) -> &[u8]
        ensures value { result.now ≡ bytes_of self.now }
        ensures some { 0 < length result.now }
        ensures few { length result.now ≤ 32 }
    {
        &self.bytes[..self.len]
    }
}

// A slot: its key, if one is set, and the last serial that was opened. The two
// stand apart: `put` takes a last serial without a key too, and `at` gives it back.
#[derive(Clone, Copy)]
pub struct Slot {
    pub key: Option<Key>,
    pub last: u32,
}

// The slots of a box.
#[derive(Clone, Copy)]
pub struct Table {
    pub slots: [Slot; 8],
}

// A slot's number is below 8.
fn check_slot(slot: u8) -> Result<(), Refusal>
    ensures { result ≡ answer (slot_check slot) }
{
    if slot < SLOTS {
        Ok(())
    } else {
        Err(Refusal::NoSlot)
    }
}

impl Table {
    // Eight empty slots.
    pub fn new() -> Table
        ensures empty { (s : ℕ) → slot_at result.slots s ≡ empty }
        ensures stands { (seal : Sealing) → Stands seal result.slots [] }
    {
        Table {
            slots: [Slot { key: None, last: 0 }; 8],
        }
    }

    // The slot `i`: an empty one past the eighth.
    pub fn at(&self, i: u8) -> Slot
        ensures { result ≡ slot_at self.now.slots i }
    {
        self.slots
            .get(usize::from(i))
            .copied()
            .unwrap_or(Slot { key: None, last: 0 })
    }

    // Puts a slot into its place, and changes no other; past the eighth
    // nothing changes.
    pub fn put(&mut self, i: u8, slot: Slot)
        ensures { (s : ℕ) → slot_at self.new.slots s ≡ (if hits i s then slot else slot_at self.old.slots s) }
    {
        // By index: of the other slots `get_mut` promises nothing.
        if i < SLOTS {
            self.slots[usize::from(i)] = slot;
        }
    }

    // Puts a key into a slot, which then has opened nothing.
    pub fn set_key(&mut self, slot: u8, key: &[u8]) -> Result<(), Refusal>
        ensures answer { result ≡ answer (set_checks slot key.now) }
        ensures key { (s : ℕ) → key_of (slot_at self.new.slots s) ≡ (if good_key key.now && hits slot s then Some key.now else key_of (slot_at self.old.slots s)) }
        ensures last { (s : ℕ) → last_of (slot_at self.new.slots s) ≡ (if good_key key.now && hits slot s then 0 else last_of (slot_at self.old.slots s)) }
        ensures noted { (seal : Sealing) → Noted seal self.old.slots self.new.slots (setting slot key.now ∷ []) }
    {
        check_slot(slot)?;
        let key = Key::new(key).ok_or(Refusal::KeyLength)?;
        let set = Slot {
            key: Some(key),
            last: 0,
        };
        self.put(slot, set);
        Ok(())
    }

    // Empties a slot.
    pub fn clear(&mut self, slot: u8) -> Result<(), Refusal>
        ensures answer { result ≡ answer (slot_check slot) }
        ensures after { (s : ℕ) → slot_at self.new.slots s ≡ (if hits slot s then empty else slot_at self.old.slots s) }
        ensures noted { (seal : Sealing) → Noted seal self.old.slots self.new.slots (clearing slot ∷ []) }
    {
        check_slot(slot)?;
        self.put(slot, Slot { key: None, last: 0 });
        Ok(())
    }

    // The last serial opened from a slot, if it has a key.
    pub fn last_serial(&self, slot: u8) -> Result<Option<u32>, Refusal>
        ensures answer { Asked slot (slot_at self.now.slots slot) result }
        ensures noted { (seal : Sealing) → Noted seal self.now.slots self.now.slots (asking slot ∷ []) }
    {
        check_slot(slot)?;
        let slot = self.at(slot);
        Ok(slot.key.map(|_| slot.last))
    }
}
