//! Kind 1, jobs: what the table is to do, one step to an item.

ghost use Rattle.std.specs.Prelude.{◌≡◌, ℕ, true, [], ◌∷◌, length, MatchOption, ◌≢◌};
ghost use Rattle.kinds.specs.Kind.{Writes};
ghost use Rattle.patterns.specs.Pattern.{Makes, fitting, in_ranges, spelt};
ghost use Rattle.items.specs.Job.{coordinates, job_lawful, job_line, job_reading};
ghost use Rattle.items.specs.declared.job.JobItem.TheVariants.{Arc, Panel};
ghost use Rattle.items.specs.Jobs.{job_shaped, job_bounded, job_found, job_sound};
ghost use Rattle.std.proofs.Common.{rules};

use kinds::Kind;
use patterns::{Pattern, Range};
use refusal::Refusal;

// A place on the cloth, in tenths of a millimetre.
#[derive(Clone, Copy, PartialEq, Eq, Debug)]
pub struct Point {
    pub x: i32,
    pub y: i32,
}

#[derive(Clone, Copy, PartialEq, Eq, Debug)]
pub enum JobItem {
    // the panel that follows, and the cloth that it is cut from
    Panel { number: u16, cloth: u16 },
    // to a place with the head up
    Move(Point),
    // to a place in a straight cut
    Cut(Point),
    // to a place in a straight pen line
    Mark(Point),
    // to a place in a cut that is part of a circle through another
    Arc { via: Point, to: Point },
    // the panel is done
    End,
}

const PANEL_NUMBERS: Range = Range {
    low: 1,
    high: 9_999,
};

const CLOTH_NUMBERS: Range = Range { low: 1, high: 99 };

const COORDINATES: Range = Range {
    low: -500_000,
    high: 500_000,
};

// a line of each sort
const PANEL: Pattern<'static> = Pattern {
    text: b"(panel # (cloth #))\n",
    ranges: &[PANEL_NUMBERS, CLOTH_NUMBERS],
};

const MOVE: Pattern<'static> = Pattern {
    text: b"(move (x #) (y #))\n",
    ranges: &[COORDINATES, COORDINATES],
};

const CUT: Pattern<'static> = Pattern {
    text: b"(cut (x #) (y #))\n",
    ranges: &[COORDINATES, COORDINATES],
};

const MARK: Pattern<'static> = Pattern {
    text: b"(mark (x #) (y #))\n",
    ranges: &[COORDINATES, COORDINATES],
};

const ARC: Pattern<'static> = Pattern {
    text: b"(arc (via (x #) (y #)) (to (x #) (y #)))\n",
    ranges: &[COORDINATES, COORDINATES, COORDINATES, COORDINATES],
};

const END: Pattern<'static> = Pattern {
    text: b"(end)\n",
    ranges: &[],
};

pub struct Job;

impl Kind for Job {
    type Item = JobItem;

    const NUMBER: u8 = 1;

    ghost NUMBER = { 1 };

    const LONGEST: usize = 65;

    ghost LONGEST = { 65 };

    ghost lawful = { job_lawful };

    ghost line = { job_line };

    ghost reading = { job_reading };

    ghost numbered = { Prim.search rules };

    ghost short = { Prim.search rules };

    ghost shaped = { job_shaped };

    ghost bounded = { job_bounded };

    ghost found = { job_found };

    ghost sound = { job_sound };

    fn write(item: &JobItem, out: &mut [u8]) -> Result<usize, Refusal> {
        match *item {
            JobItem::Panel { number, cloth } => {
                PANEL.write(&[i32::from(number), i32::from(cloth)], out)
            }
            JobItem::Move(to) => MOVE.write(&[to.x, to.y], out),
            JobItem::Cut(to) => CUT.write(&[to.x, to.y], out),
            JobItem::Mark(to) => MARK.write(&[to.x, to.y], out),
            JobItem::Arc { via, to } => ARC.write(&[via.x, via.y, to.x, to.y], out),
            JobItem::End => END.write(&[], out),
        }
    }

    fn read(text: &[u8]) -> Option<JobItem> {
        // no chain of `or_else`: a proof learns nothing of an item that a closure makes
        if let Some(item) = read_panel(text) {
            return Some(item);
        }
        if let Some(to) = read_point(&MOVE, text) {
            return Some(JobItem::Move(to));
        }
        if let Some(to) = read_point(&CUT, text) {
            return Some(JobItem::Cut(to));
        }
        if let Some(to) = read_point(&MARK, text) {
            return Some(JobItem::Mark(to));
        }
        if let Some(item) = read_arc(text) {
            return Some(item);
        }
        (text == END.text).then_some(JobItem::End)
    }
}

// The point of a line of this pattern; nothing exactly where there is none, if the pattern has two numbers.
#[inline(always)]
fn read_point(pattern: &Pattern<'_>, text: &[u8]) -> Option<Point>
    requires { length pattern.now.ranges.now ≡ 2 }
    ensures { MatchOption result (fitting pattern.now.text.now pattern.now.ranges.now ≡ true → (to : Point) → Makes pattern.now.text.now pattern.now.ranges.now text.now (to.x ∷ to.y ∷ []) → ⊥) (λ to. Makes pattern.now.text.now pattern.now.ranges.now text.now (to.x ∷ to.y ∷ [])) }
{
    let [x, y] = pattern.read::<2>(text)?;
    Some(Point { x, y })
}

// The panel of a line; nothing exactly where there is none.
fn read_panel(text: &[u8]) -> Option<JobItem>
    ensures { MatchOption result ((number cloth : ℕ) → job_lawful (Panel number cloth) ≡ true → job_line (Panel number cloth) ≢ text.now) (λ item. (job_lawful item ≡ true) × (job_line item ≡ text.now)) }
{
    let [number, cloth] = PANEL.read::<2>(text)?;
    Some(JobItem::Panel {
        number: u16::try_from(number).ok()?,
        cloth: u16::try_from(cloth).ok()?,
    })
}

// The arc of a line; nothing exactly where there is none.
fn read_arc(text: &[u8]) -> Option<JobItem>
    ensures { MatchOption result ((via to : Point) → job_lawful (Arc via to) ≡ true → job_line (Arc via to) ≢ text.now) (λ item. (job_lawful item ≡ true) × (job_line item ≡ text.now)) }
{
    let [via_x, via_y, x, y] = ARC.read::<4>(text)?;
    Some(JobItem::Arc {
        via: Point { x: via_x, y: via_y },
        to: Point { x, y },
    })
}
