//! Kind 2, settings: how the table is to work.

ghost use Rattle.std.specs.Prelude.{◌≡◌, ℕ, true, [], ◌∷◌, ℤ, pos, MatchOption, ◌≢◌, int_le};
ghost use Rattle.patterns.specs.declared.Range.{Range};
ghost use Rattle.patterns.specs.Pattern.{Makes, fitting};
ghost use Rattle.items.specs.declared.setting.SettingItem.TheVariants.{Tool};
ghost use Rattle.items.specs.Setting.{setting_lawful, setting_line, setting_reading};
ghost use Rattle.items.specs.Settings.{setting_shaped, setting_bounded, setting_found, setting_sound};
ghost use Rattle.std.proofs.Common.{rules};

use kinds::Kind;
use patterns::{Pattern, Range};
use refusal::Refusal;

#[derive(Clone, Copy, PartialEq, Eq, Debug)]
pub enum SettingItem {
    // how fast the head moves
    Speed(u16),
    // how hard the knife presses
    Press(u16),
    // a tool, and how far it stands off the middle of the head
    Tool { number: u16, offset: i32 },
}

const SPEEDS: Range = Range { low: 1, high: 999 };

const PRESSURES: Range = Range {
    low: 0,
    high: 9_999,
};

const TOOL_NUMBERS: Range = Range { low: 1, high: 8 };

const OFFSETS: Range = Range {
    low: -999,
    high: 999,
};

// a line of each sort
const SPEED: Pattern<'static> = Pattern {
    text: b"(speed #)\n",
    ranges: &[SPEEDS],
};

const PRESS: Pattern<'static> = Pattern {
    text: b"(press #)\n",
    ranges: &[PRESSURES],
};

const TOOL: Pattern<'static> = Pattern {
    text: b"(tool # (offset #))\n",
    ranges: &[TOOL_NUMBERS, OFFSETS],
};

pub struct Setting;

impl Kind for Setting {
    type Item = SettingItem;

    const NUMBER: u8 = 2;

    ghost NUMBER = { 2 };

    const LONGEST: usize = 23;

    ghost LONGEST = { 23 };

    ghost lawful = { setting_lawful };

    ghost line = { setting_line };

    ghost reading = { setting_reading };

    ghost numbered = { Prim.search rules };

    ghost short = { Prim.search rules };

    ghost shaped = { setting_shaped };

    ghost bounded = { setting_bounded };

    ghost found = { setting_found };

    ghost sound = { setting_sound };

    fn write(item: &SettingItem, out: &mut [u8]) -> Result<usize, Refusal> {
        match *item {
            SettingItem::Speed(value) => SPEED.write(&[i32::from(value)], out),
            SettingItem::Press(value) => PRESS.write(&[i32::from(value)], out),
            SettingItem::Tool { number, offset } => {
                TOOL.write(&[i32::from(number), offset], out)
            }
        }
    }

    fn read(text: &[u8]) -> Option<SettingItem> {
        // no chain of `or_else`: a proof learns nothing of an item that a closure makes
        if let Some(value) = read_lone(&SPEED, text) {
            return Some(SettingItem::Speed(value));
        }
        if let Some(value) = read_lone(&PRESS, text) {
            return Some(SettingItem::Press(value));
        }
        read_tool(text)
    }
}

// The number of a line of a pattern that has no other; nothing exactly where
// there is none, if the pattern has just that one.
#[inline(always)]
fn read_lone(pattern: &Pattern<'_>, text: &[u8]) -> Option<u16>
    requires { (range : Range) × (pattern.now.ranges.now ≡ range ∷ []) × (int_le (pos 0) range.low ≡ true) × (int_le range.high (pos 65535) ≡ true) }
    ensures { MatchOption result (fitting pattern.now.text.now pattern.now.ranges.now ≡ true → (n : ℕ) → Makes pattern.now.text.now pattern.now.ranges.now text.now (pos n ∷ []) → ⊥) (λ n. Makes pattern.now.text.now pattern.now.ranges.now text.now (pos n ∷ [])) }
{
    let [value] = pattern.read::<1>(text)?;
    u16::try_from(value).ok()
}

// The tool of a line; nothing exactly where there is none.
fn read_tool(text: &[u8]) -> Option<SettingItem>
    ensures { MatchOption result ((number : ℕ) (offset : ℤ) → setting_lawful (Tool number offset) ≡ true → setting_line (Tool number offset) ≢ text.now) (λ item. (setting_lawful item ≡ true) × (setting_line item ≡ text.now)) }
{
    let [number, offset] = TOOL.read::<2>(text)?;
    Some(SettingItem::Tool {
        number: u16::try_from(number).ok()?,
        offset,
    })
}
