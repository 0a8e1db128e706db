//! The interface of kinds.

ghost use Rattle.std.specs.Prelude.{◌≡◌, ℕ, ◌≤◌, Bool, true, List, length, Some, None, Option};
ghost use Rattle.shape.specs.Form.{WellShaped};
ghost use Rattle.kinds.specs.Kind.{Writes};
ghost use Rattle.kinds.specs.Limits.{most_kinds, longest_line};

use refusal::Refusal;

// bytes of a line, whatever its kind, its line end counted
pub const LONGEST_LINE: usize = 255;

// A kind of items. Its meaning is which items are lawful and which line each
// has. A kind has no values of its own and no call takes one, so none can
// change the meaning or the number.
pub trait Kind {
    type Item: Copy;

    const NUMBER: u8;

    ghost NUMBER: { ℕ };

    // bytes of its longest line, the line end counted
    const LONGEST: usize;

    ghost LONGEST: { ℕ };

    ghost lawful: { Self.Item → Bool };

    ghost line: { Self.Item → List ℕ };

    // the lawful item that has this line
    ghost reading: { List ℕ → Option (Self.Item) };

    // Writes the item's line to the front of `out` and answers its length.
    fn write(item: &Self::Item, out: &mut [u8]) -> Result<usize, Refusal>
        ensures { Writes (lawful item.now) (line item.now) out.old out.new result };

    // The lawful item that has this line; nothing where there is none.
    fn read(text: &[u8]) -> Option<Self::Item>
        ensures { result ≡ reading text.now };

    ghost numbered: { (1 ≤ NUMBER) × (NUMBER ≤ most_kinds) };

    ghost short: { LONGEST ≤ longest_line };

    ghost shaped: { (x : Self.Item) → lawful x ≡ true → WellShaped (line x) };

    ghost bounded: { (x : Self.Item) → lawful x ≡ true → length (line x) ≤ LONGEST };

    ghost found: { (x : Self.Item) → lawful x ≡ true → reading (line x) ≡ Some x };

    ghost sound: { (l : List ℕ) (x : Self.Item) → reading l ≡ Some x → (lawful x ≡ true) × (line x ≡ l) };
}
