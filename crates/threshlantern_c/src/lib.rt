// The static library for C and Rust: what `threshlantern` has, exported under the same names.
//
// Stays: each function repeats that of `threshlantern`: no crate can depend on a static library, and `promises` does.
// A slice passes as a pointer and a length; states and answers pass as structs by value. Each function here calls
// the one of its name in `threshlantern` and repeats its contract. No other crate exports anything.
#![tactic(auto)]

pub mod conversion;
pub mod demodulators;
pub mod filters;
pub mod levels;
pub mod numbers;
pub mod oscillator;
pub mod sidebands;
