// The oscillator: shifts the spectrum of a block of interleaved pairs.
//
// Document 01, "The stages": as the Rust's `mix_scalar`, in f64, each product and sum rounded once, results
// narrowed to f32. Sine and cosine are taken afresh at the start of each call, and one turn is taken off
// the phase at its end, also of an empty call; so cutting a stream changes its bits. NaN and infinities
// pass. `specs/Mix.antt` has the definitions, `specs/Rules.antt` the rules on settings and state,
// `specs/Call.antt` what each call gives. No public function here has a `requires`.
#![tactic(auto)]

mod blocks;
mod rules;
mod tune;
mod turn;

ghost use Rattle.std.specs.Prelude.{◌≡◌};
ghost use Rattle.nco.specs.Call.{answered, made, retuned, mixed, cleared};

use tune::Tuning;

#[repr(C)]
#[derive(Clone, Copy, Default)]
pub struct Nco {
    pub phase: f64,
    pub phase_inc: f64,
    pub rotator_i: f64,
    pub rotator_q: f64,
}

// What every call answers: the number of the refusal, 0 for none; and the state for the next call, which is the one
// handed in where this one is refused.
// Stays: C reads this record (`tl_nco_mix`), so it has no type parameter, and `refusal` is a number.
#[repr(C)]
#[derive(Clone, Copy)]
pub struct NcoDone {
    pub refusal: u32,
    pub state: Nco,
}

impl Nco {
    // An oscillator at `freq_hz`, phase 0. SETTING: a frequency that is not finite, a rate that is not finite
    // and above 0, an increment outside -PI to PI; the record is then one of zeros.
    #[tactic(auto, using(stage::proofs::Refusals::ok_gives), unfolding(crate::specs::Call::made))]
    pub fn new(freq_hz: f64, sample_rate_hz: f64) -> NcoDone
        ensures { result ≡ made freq_hz sample_rate_hz }
    {
        let tuning = Tuning {
            freq: freq_hz,
            rate: sample_rate_hz,
        };
        if let Err(refusal) = tuning.demands() {
            return Nco::default().answer(u32::from(refusal));
        }
        tuning.at(0.0).answer(stage::NONE)
    }

    // Another frequency at the phase that there is. SETTING as `new`, and for the old increment too; STATE for a
    // phase or a rotator that is not finite.
    #[tactic(auto, using(stage::proofs::Refusals::ok_gives), unfolding(crate::specs::Call::retuned))]
    pub fn set_freq(mut self, freq_hz: f64, sample_rate_hz: f64) -> NcoDone
        ensures { result ≡ retuned self freq_hz sample_rate_hz }
    {
        let tuning = Tuning {
            freq: freq_hz,
            rate: sample_rate_hz,
        };
        if let Err(refusal) = self.retuning(tuning) {
            return self.answer(u32::from(refusal));
        }
        self = tuning.at(self.phase);
        self.answer(stage::NONE)
    }

    // Mixes the pairs of `iq` in place. SETTING for an increment outside -PI to PI, STATE for a phase or a rotator
    // that is not finite, LIMIT, LENGTH for an odd slice.
    #[tactic(auto, using(stage::proofs::Refusals::ok_gives), unfolding(crate::specs::Call::mixed))]
    pub fn mix(mut self, iq: &mut [f32]) -> NcoDone
        ensures { (result, iq.new) ≡ mixed self iq.old }
    {
        if let Err(refusal) = self.mixing(iq.len()) {
            return self.answer(u32::from(refusal));
        }
        let end = self.run(iq);
        self.phase = angle::turn::pull(end);
        self.answer(stage::NONE)
    }

    // Phase 0 again. SETTING and STATE as `mix`: a poisoned oscillator is not healed, a new one is made.
    #[tactic(auto, using(stage::proofs::Refusals::ok_gives), unfolding(crate::specs::Call::cleared))]
    pub fn reset(mut self) -> NcoDone
        ensures { result ≡ cleared self }
    {
        if let Err(refusal) = self.resting() {
            return self.answer(u32::from(refusal));
        }
        self.phase = 0.0;
        self.answer(stage::NONE)
    }

    // This state in an answer.
    fn answer(self, refusal: u32) -> NcoDone
        ensures { result ≡ answered refusal self }
    {
        NcoDone {
            refusal,
            state: self,
        }
    }
}
