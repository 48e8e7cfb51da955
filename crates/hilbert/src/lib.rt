// The Hilbert filter: turns the phase of a signal by 90 degrees, with an output for each sample.
//
// Document 01, "The stages": the taps follow the Rust's `HilbertFilter::new`, and the sum takes taps 1, 3,
// 5 and so on, in order. Taps and history are lent, and the number of taps is the length of the lent slice.
// `specs/Taps.antt` has the definition of the taps, `specs/Making.antt` and `specs/Process.antt` what each
// call gives, on acceptance and on refusal, `specs/Cases.antt` worked values; proofs/Cut.antt and
// proofs/Damage.antt have the theorems on streams. No public function here has a `requires`.
#![tactic(auto)]

mod making;
mod processing;
mod rules;
mod taps;

pub use rules::taps_allowed;

// All that a Hilbert filter is, its taps and its history, is lent by the caller.
// Stays: C lends taps and history anew at each call (`tl_hilbert_process_into`), so no record holds them.
#[derive(Clone, Copy)]
pub struct HilbertFilter;

// What a call answers: the number of its refusal, 0 for none, and how many outputs were written.
// Stays: C reads this record (`tl_hilbert_process_into`), so it has no type parameter, and `refusal` is a number.
#[repr(C)]
#[derive(Clone, Copy)]
pub struct HilbertDone {
    pub refusal: u32,
    pub count: usize,
}
