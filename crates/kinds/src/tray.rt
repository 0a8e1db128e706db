//! Trays: places that the caller lends for items, and how many of them are filled.

ghost use Rattle.std.specs.Prelude.{◌≡◌, ℕ, ◌+◌, ◌<◌, length, take, if◌then◌else◌, Ok, Err, nat_lt, slice_set};
ghost use Rattle.std.specs.List.{slice_get};
ghost use Rattle.refusal.specs.declared.Refusal.TheVariants.{SmallTray};
ghost use Rattle.kinds.specs.Held.{Loads, held};

use crate::kind::Kind;
use crate::text::fill;
use refusal::Refusal;

// Items of one type, in their order, in places that the caller lends. The count
// stands beside the places, since a box has no heap; no contract needs to know
// that it is within them.
#[derive(Drop)]
pub struct Tray<'a, T> {
    items: &'a mut [T],
    count: usize,
}

impl<'a, T: Copy> Tray<'a, T> {
    // An empty tray over these places.
    pub fn new(items: &'a mut [T]) -> Tray<'a, T>
        ensures items { result.items.now ≡ items.old }
        ensures count { result.count ≡ 0 }
        ensures lent { result.items.ghost_name ≡ items.entry.ghost_name }
    {
        Tray { items, count: 0 }
    }

    // How many items it holds.
    pub fn len(&self) -> usize
        ensures { result ≡ length (held self.now) }
    {
        self.as_slice().len()
    }

    // The items that it holds.
    pub fn as_slice(&self) -> &[T]
        ensures { result.now ≡ held self.now }
    {
        &self.items[..self.count.min(self.items.len())]
    }

    // The item at an index; nothing at or past the count.
    pub fn get(&self, index: usize) -> Option<T>
        ensures { result ≡ slice_get (held self.now) index }
    {
        self.as_slice().get(index).copied()
    }

    // Adds an item after the last; refused exactly where every place is filled.
    pub fn push(&mut self, item: T) -> Result<(), Refusal>
        ensures answer { result ≡ (if nat_lt self.old.count (length self.old.items.now) then Ok tt else Err SmallTray) }
        ensures items { self.new.items.now ≡ slice_set self.old.items.now self.old.count item }
        ensures count { self.new.count ≡ (if nat_lt self.old.count (length self.old.items.now) then self.old.count + 1 else self.old.count) }
        ensures lent { self.new.items.ghost_name ≡ self.old.items.ghost_name }
    {
        if self.count >= self.items.len() {
            return Err(Refusal::SmallTray);
        }
        self.items[self.count] = item;
        self.count += 1;
        Ok(())
    }

    // Lets go of all items; the places stay as they are.
    pub fn clear(&mut self)
        ensures items { self.new.items.now ≡ self.old.items.now }
        ensures count { self.new.count ≡ 0 }
        ensures lent { self.new.items.ghost_name ≡ self.old.items.ghost_name }
    {
        self.count = 0;
    }
}

// Reads a text into the tray: its items replace what the tray held, and their
// count is answered. A refusal leaves the tray as it was.
pub fn load<K: Kind>(text: &[u8], tray: &mut Tray<'_, K::Item>) -> Result<usize, Refusal>
    ensures { Loads K.Kind.reading text.now tray.old tray.new result }
{
    let count = fill::<K>(text, tray.items)?;
    tray.count = count;
    Ok(count)
}
