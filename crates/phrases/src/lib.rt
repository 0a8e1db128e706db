//! The lines that the programs take and print, beside sealed lines and items.

#![tactic(auto)]

mod given;
mod printed;

pub use given::{SlotKey, read_key_line, read_last_line};
pub use printed::{opened_line, refusal_line};
