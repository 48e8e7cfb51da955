// The audio gain control: a gain that brings audio to a target level, holds it for a while after a loud
// sample, and does not raise the noise floor.
//
// Document 01, "The stages" and "Struck samples", and the Rust's `AudioAgc` operation by operation. A state
// and an answer travel by value. `specs/Level.antt` has the envelope, the clamp and the gains,
// `specs/Step.antt` the step, `specs/State.antt` what is demanded of a state, `specs/Made.antt` a fresh one
// and the rule on the hang time, `specs/Process.antt` what a call gives, accepted or refused, `specs/Cases.antt`
// worked values. proofs/ shows that cutting a stream into calls and dropping the struck samples change
// nothing else, that a burst of bad samples leaves no trace, and that no call makes a state that a later one
// refuses. A block is tried as if no sample were struck (`trial.rt`; `specs/Moved.antt` is for that), and left to
// `stage::run_mono` where a sample of it is struck or lies in dead air. No public function here has a `requires`.
#![tactic(auto)]

mod level;
mod made;
mod process;
mod step;
mod trial;

ghost use Rattle.std.specs.Prelude.{◌≡◌, true};
ghost use Rattle.stage.specs.Refusal.{refusal_no};
ghost use Rattle.stage.specs.Numbers.{number_of};
ghost use Rattle.audio_agc.specs.State.{levels_met, setting_met, state_met, answered};

use stage::Refusal;

// The gain, the level that it brings a sample to, how fast it falls and rises, the floor below which a
// signal is dead air, how many samples the gain hangs after it fell and how many of them are left, and the
// signal's envelope.
#[repr(C)]
#[derive(Clone, Copy, Default)]
pub struct AudioAgc {
    pub gain: f32,
    pub target: f32,
    pub attack: f32,
    pub decay: f32,
    pub min_magnitude: f32,
    pub hang_time_samples: usize,
    pub hang_counter: usize,
    pub envelope: f32,
}

// What every call answers: the number of the refusal, 0 for none; the state for the next call, which is
// the one handed in where this one is refused; and how many samples were struck.
// Stays: `tl_audio_agc_process` gives it to C, so it keeps the refusal's number and takes no type parameter.
#[repr(C)]
#[derive(Clone, Copy)]
pub struct AudioAgcDone {
    pub refusal: u32,
    pub state: AudioAgc,
    pub struck: usize,
}

impl AudioAgc {
    // Whether target and floor are finite and above 0, and attack and decay lie from 0 to 1.
    fn levels(self) -> bool
        ensures { result ≡ levels_met self.target self.attack self.decay self.min_magnitude }
    {
        let parts = stage::in_unit(self.attack) & stage::in_unit(self.decay);
        stage::positive(self.target) & stage::positive(self.min_magnitude) & parts
    }

    // Whether each setting keeps its rule.
    fn setting(self) -> bool
        ensures { result ≡ setting_met self }
    {
        self.levels() & (self.hang_time_samples < 16_777_216)
    }

    // Whether what is stored may have come from a call: finite, and no hang longer than the hang time.
    fn state(self) -> bool
        ensures { result ≡ state_met self }
    {
        stage::both_finite(self.gain, self.envelope) & (self.hang_counter <= self.hang_time_samples)
    }

    // The demands on this state, and on a slice that is within the limit where the flag says so.
    fn demands(self, within: bool) -> Result<(), Refusal>
        ensures { number_of result ≡ refusal_no (setting_met self) (state_met self) within true true }
    {
        stage::demands(self.setting(), self.state(), within, true, true)
    }

    // This state in an answer.
    fn answer(self, refusal: u32, struck: usize) -> AudioAgcDone
        ensures { result ≡ answered refusal self struck }
    {
        AudioAgcDone {
            refusal,
            state: self,
            struck,
        }
    }
}
