// The decimator: a lowpass filter over a stream, of which each factor-th output is kept.
//
// Document 01, "The stages", the bullet "Decimator". The caller lends taps and history; the rest is a small record
// that goes in by value and comes back in the answer. `specs/Making.antt`, `Process.antt` and `Settling.antt` say
// what the calls give, on acceptance and on refusal, by the rules of `specs/Rules.antt`; `specs/Cases.antt` has the
// marked cases 5, 6 and 7. `proofs/Cut.antt` and `proofs/Damage.antt` show demand 3: a stream may be cut at will
// into calls, and damage to it passes. No public function here has a `requires`.
#![tactic(auto)]

mod making;
mod processing;
mod rules;
mod settling;

// What a decimator is besides its taps and its history, which the caller lends. `phase` samples come before the
// next output.
// Stays: C lends taps and history anew at each call (`tl_decimator_process_into`), so no record holds them.
#[repr(C)]
#[derive(Clone, Copy, Default)]
pub struct Decimator {
    pub factor: usize,
    pub phase: usize,
}

// What a call answers: the number of its refusal, 0 for none, the decimator from there on, and how many outputs
// were written.
// Stays: C reads this record (`tl_decimator_process_into`), so it has no type parameter, and `refusal` is a number.
#[repr(C)]
#[derive(Clone, Copy)]
pub struct Decimated {
    pub refusal: u32,
    pub state: Decimator,
    pub count: usize,
}
