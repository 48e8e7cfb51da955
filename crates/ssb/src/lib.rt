// The SSB demodulator: I delayed by 32, and the Hilbert filter's sum over Q added for the upper sideband, subtracted
// for the lower.
//
// Document 01, "The stages", the bullet on the Hilbert taps. The caller lends 65 taps, the last 64 of Q and the last
// 32 of I; the rest is a small record that goes in by value and comes back in the answer. `specs/Sideband.antt` has
// the definition over pairs, `specs/Making.antt` and `specs/Process.antt` what the calls give, on acceptance and on
// refusal, by the rules of `specs/Rules.antt`; `specs/Cases.antt` has worked values. `proofs/Cut.antt` and
// `proofs/Damage.antt` show demand 3: a stream may be cut at will into calls, and damage to it passes. No public
// function here has a `requires`.
#![tactic(auto)]

mod lent;
mod making;
mod mixing;
mod processing;
mod rules;
mod run;

// What a demodulator is besides its taps and its histories, which the caller lends.
// Stays: C lends taps and histories anew at each call (`tl_ssb_process_into`), so public calls take no record of them.
#[repr(C)]
#[derive(Clone, Copy, Default)]
pub struct SsbDemodulator {
    pub is_usb: bool,
}

// What a call answers: the number of its refusal, 0 for none, the demodulator from there on, and how many outputs
// were written.
// Stays: C reads this record (`tl_ssb_process_into`), so it has no type parameter, and `refusal` is a number.
#[repr(C)]
#[derive(Clone, Copy)]
pub struct SsbDone {
    pub refusal: u32,
    pub state: SsbDemodulator,
    pub count: usize,
}
