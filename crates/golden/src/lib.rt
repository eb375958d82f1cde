// The golden file: check, walk, find, find by halving, compare, make a record, retire one, and what a listing needs. The file is only read.
// Rests on the crate `envelope`, by its promises and the laws that it exports.
#![tactic(auto)]

pub mod checker;
pub mod comparer;
mod file;
pub mod finder;
pub mod halver;
pub mod lister;
pub mod maker;
pub mod orderer;
mod positions;
pub mod record;
pub mod refusal;
pub mod retirer;
pub mod stepper;
pub mod walker;

pub use crate::checker::check;
pub use crate::comparer::compare;
pub use crate::finder::{Found, Name, RefusedAfter, find};
pub use crate::halver::find_by_halving;
pub use crate::lister::{Entry, count, count_retired, entry_at};
pub use crate::maker::make;
pub use crate::orderer::ascending;
pub use crate::record::Record;
pub use crate::refusal::{Refusal, RefusedAt};
pub use crate::retirer::retire;
pub use crate::stepper::{Stepping, Stored, step, stored_message};
pub use crate::walker::Walk;
