// The taps of a lowpass filter: a sinc under a Hamming window, scaled so that they add up to 1.
//
// Document 01, "The stages", the bullet "Taps": all f32, left to right. The number of taps is the length
// of the lent slice. `specs/Lowpass.antt` has the definition, `specs/Rules.antt` the rules on the number
// of taps and on the cutoff, which the decimator shares, `specs/Cases.antt` worked values. A rule that is
// broken is SETTING, and then nothing is written. No public function here has a `requires`.
#![tactic(auto)]

mod rules;
mod taps;

pub use rules::{cutoff_allowed, taps_allowed};
pub use taps::design_lowpass;
