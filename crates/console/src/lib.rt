// What a tool at a terminal needs: pages filled in by a template, tables of words, numbers out of digits, and files taken whole.
// Rests on std and on the kit's `io`, and knows nothing of messages.
#![tactic(auto)]

pub mod decimal;
pub mod errors;
pub mod files;
pub mod filling;
mod folders;
mod marks;
pub mod nearest;
mod page;
pub mod table;
