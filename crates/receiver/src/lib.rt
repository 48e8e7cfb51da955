// The demo's work: a block of the dongle's bytes in, a block of sound out.
//
// Document 01, "The modules", the demo program: `convert`, split, `with_factor(10)` on each half, FM without
// de-emphasis, f32 little-endian. The caller lends taps and both histories; the rest is a small record that goes in by
// value and comes back in the answer. Both halves are as long, so one phase serves both. `specs/Sound.antt` says what
// a stream of bytes gives, by the definitions that the stages' own contracts cite; `specs/Making.antt` and
// `specs/Receive.antt` say what the calls give, on acceptance and on refusal. `proofs/Cut.antt` shows that a stream may
// be cut between any two pairs. No public function here has a `requires`.
#![tactic(auto)]

mod bytes;
mod making;
mod path;
mod receiving;
mod rules;

use fm::FmDemodulator;

// The most bytes of a block, and the pairs in it: what the scratch inside is made for.
pub const BLOCK: usize = 8192;

const PAIRS: usize = BLOCK / 2;

// The most samples that a block gives, one for every tenth pair, and the bytes of their sound.
const HEARD: usize = PAIRS / 10 + 1;

const TENTHS: usize = 2 * HEARD;

pub const SOUND: usize = 4 * HEARD;

// What a receiver is besides its taps and its histories, which the caller lends.
#[derive(Clone, Copy, Default)]
pub struct Receiver {
    pub phase: usize,
    pub fm: FmDemodulator,
}

// What a call answers: the number of its refusal, 0 for none, the receiver from there on, and how many bytes of sound
// were written.
// Stays: the refusal is a number, since the theorem `receiver_receive` (promises, Demand1Receiver.antt) speaks of it.
#[derive(Clone, Copy)]
pub struct Received {
    pub refusal: u32,
    pub state: Receiver,
    pub count: usize,
}
