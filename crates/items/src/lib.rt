//! The kinds that there are. `docs/KINDS.md` has their lines and ranges, and
//! says how a kind is added.

#![tactic(auto)]

mod job;
mod setting;

pub use job::{Job, JobItem, Point};
pub use setting::{Setting, SettingItem};
