//! What the program that opens sheets answers, and the one that seals them.
//! What they print comes from here. So far: a line given to the box, and what
//! is printed of its answer.

#![tactic(auto)]

mod opening;
