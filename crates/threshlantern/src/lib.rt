// The C face as a library: every public call under a name that begins with `tl_`.
//
// Each function here hands its arguments on to one public call of a stage and repeats that call's contract.
// Stays: `threshlantern_c` repeats each function: no crate can depend on a static library, and the theorems of
// `promises` (OnlyC.antt) speak of the contracts here.
// A library exports nothing, so `threshlantern_c`, the static library over this one, has the same functions for C.
// `numbers.rt` has the number work, for comparing it with other libraries.
#![tactic(auto)]

pub mod conversion;
pub mod demodulators;
pub mod filters;
pub mod levels;
pub mod numbers;
pub mod oscillator;
pub mod sidebands;
