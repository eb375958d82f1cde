// The public operations of the layers below, in numbers and slices, as programs in C and Rust call them (include/morlewen.h); `exports_c` is
// the archive of them.
// Rests on the crates `sum`, `envelope`, `judge`, `golden`, `feed`, `frame` and `sender`, by their promises and the laws that they export.
#![tactic(auto)]

mod answers;
pub mod envelopes;
pub mod feeds;
pub mod frames;
pub mod goldens;
pub mod qos;
pub mod senders;
pub mod sums;
pub mod timing;
pub mod verdicts;
