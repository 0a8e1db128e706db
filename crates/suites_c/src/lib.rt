//! The static library that a C program links: bare sealing and opening by
//! suite number under their C names. Each slice is a pointer and a length
//! there; include/koqarpi.h declares them and says what they need.

#![tactic(auto)]

ghost use Rattle.suites.specs.Suites.{suite as suite_of};
ghost use Rattle.suites.specs.Calls.{SealsBy, OpensBy, Coded};

use hs1::Context;
use suites::{code, open_suite, seal_suite};

// Seals a text by the suite of that number.
#[unsafe(no_mangle)]
pub extern "C" fn koqarpi_seal(
    suite: u32,
    key: &[u8],
    nonce: &[u8],
    header: &[u8],
    text: &[u8],
    siv_out: &mut [u8],
    out: &mut [u8],
) -> u8
    ensures { Coded (SealsBy (suite_of suite) key.now nonce.now header.now text.now siv_out.old siv_out.new out.old out.new) result }
{
    let context = Context { key, nonce, header };
    code(seal_suite(suite, context, text, siv_out, out))
}

// Opens a ciphertext by the suite of that number.
#[unsafe(no_mangle)]
pub extern "C" fn koqarpi_open(
    suite: u32,
    key: &[u8],
    nonce: &[u8],
    header: &[u8],
    siv: &[u8],
    ciphertext: &[u8],
    out: &mut [u8],
) -> u8
    ensures { Coded (OpensBy (suite_of suite) key.now nonce.now header.now siv.now ciphertext.now out.old out.new) result }
{
    let context = Context { key, nonce, header };
    code(open_suite(suite, context, siv, ciphertext, out))
}
