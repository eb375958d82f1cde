// The judge: a second reader that tries the seven rules of reading, each by itself, and tells what became of each.
// Rests on the rules as `envelope` defines them, its sizes, its integrity kinds and its big-endian numbers; it calls neither `envelope::read` nor `sum::crc`.
#![tactic(auto)]

pub mod division;
pub mod judging;
mod rules;

pub use crate::division::divide;
pub use crate::judging::{Judging, Verdict, judge};
