//! A line given to the box, and what is printed of the answer.

ghost use Rattle.std.specs.Prelude.{◌≡◌, ℕ, ◌≤◌, List, ◌++◌, length, Decides, OnOk};
ghost use Rattle.chacha.specs.Rounds.{chacha_of, count};
ghost use Rattle.kinds.specs.Text.{Sheet};
ghost use Rattle.items.specs.Job.{job_lawful, job_line, job_reading};
ghost use Rattle.items.specs.Setting.{setting_lawful, setting_line, setting_reading};
ghost use Rattle.book.specs.Book.{most_items, most_bytes};
ghost use Rattle.phrases.specs.Printed.{opened_lines, refused_line};
ghost use Rattle.console.specs.Opening.{Given, Names};

use chacha::ChaCha;
use items::{Job, JobItem, Setting, SettingItem};
use keybox::KeyBox;
use kinds::{Kind, MOST_BYTES, MOST_ITEMS, Tray, write_text};
use phrases::{opened_line, refusal_line};
use refusal::Refusal;
use sealed::Unchecked;
use std::alloc::{AllocError, Global};

// Adds the line of a refusal to what is printed.
pub(crate) fn push_refusal(heap: Global, why: Refusal, out: &mut Vec<u8>) -> Result<(), AllocError>
    ensures { OnOk result (out.new.items ≡ out.old.items ++ refused_line why) }
{
    let line = refusal_line(heap, why)?;
    out.extend_from_slice(line.as_bytes())
}

// Adds the count and the lines of the items of a sheet, which are written in
// `work` first.
fn push_sheet<K: Kind>(
    heap: Global,
    items: &[K::Item],
    work: &mut [u8],
    out: &mut Vec<u8>,
) -> Result<(), AllocError>
    requires { (Sheet K.Kind.lawful K.Kind.line items.now) × (most_bytes ≤ length work.old) }
    ensures { OnOk result (out.new.items ≡ out.old.items ++ opened_lines K.Kind.line items.now) }
{
    let line = opened_line(heap, items.len())?;
    out.extend_from_slice(line.as_bytes())?;
    match write_text::<K>(items, work) {
        Ok(len) => out.extend_from_slice(&work[0..len]),
        Err(_) => unreachable(),
    }
}

// Whether a line is a sealed line of settings.
fn names_settings(line: &[u8]) -> bool
    ensures { Decides result (Names 2 line.now) }
{
    // Not `is_ok_and`: the check does not tell what its closure says of the sheet.
    match Unchecked::read(line) {
        Ok(sheet) => sheet.kind() == Setting::NUMBER,
        Err(_) => false,
    }
}

// Gives a line to the box as a kind, with these buffers, and adds what is
// printed of the answer.
fn open_as<K: Kind>(
    heap: Global,
    keys: &mut KeyBox<ChaCha>,
    line: &[u8],
    work: &mut [u8],
    places: &mut [K::Item],
    out: &mut Vec<u8>,
) -> Result<(), AllocError>
    requires { (length work.old ≡ most_bytes) × (length places.old ≡ most_items) }
    ensures kept { keys.new.cipher ≡ keys.old.cipher }
    ensures given { OnOk result ((p : List ℕ) × Given (chacha_of (count keys.old.cipher.stream.rounds)) keys.old.cipher.strength K.Kind.lawful K.Kind.line K.Kind.NUMBER K.Kind.reading keys.old.table.slots keys.new.table.slots line.now p × (out.new.items ≡ out.old.items ++ p)) }
{
    let mut tray = Tray::new(places);
    match keys.open_line::<K>(line, work, &mut tray) {
        Ok(_) => push_sheet::<K>(heap, tray.as_slice(), work, out),
        Err(why) => push_refusal(heap, why, out),
    }
}
