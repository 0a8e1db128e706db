//! Kinds of items: what every kind shows, trays of items, the text of a list.
//!
//! A kind says which items are lawful and which line each has. A sheet's text
//! is the lines of its items, joined. `docs/KINDS.md` has the kinds there are
//! and how one is added.

#![tactic(auto)]

mod kind;
mod text;
mod tray;

pub use kind::{Kind, LONGEST_LINE};
pub use text::{MOST_BYTES, MOST_ITEMS, check, fill, measure, write_text};
pub use tray::{Tray, load};
