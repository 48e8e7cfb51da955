// What the stages share: the five reasons for a refusal, the rules on settings, what a step is made of, the trait of
// a feedback stage with its runs, and what a block of samples is tried with.
//
// Document 01, "Five numbers", "Settings" and "Struck samples". The definitions stand in specs/, one
// notion a file: Refusal, Numbers, Length, Settings, Taps, Floats and Run are those of the functions here. The others
// have no code of their own: Blocks, Drop and Layout say what a stage gives over a list of samples; Stage,
// Lent, Call, Calls and Kept what its calls in place give; Into and IntoCalls what calls with an output
// slice give; InTurn speaks of any calls in a row, Burst of bad samples. Cases.antt has worked values. The laws
// that every stage cites stand in proofs/, and proofs/Lib.antt lists them. No public function here has a `requires`.
#![tactic(auto)]

mod block;
mod numbers;
mod runs;
mod settings;
mod step;
mod taps;

pub use block::{all_finite, copy};
pub use numbers::{LONGEST, NONE, Refusal, demands, even, within};
pub use runs::{Feedback, Ran, run_into, run_mono, run_pairs};
pub use settings::{in_unit, not_negative, positive};
pub use step::{blend, both_finite};
pub use taps::odd_up_to;
