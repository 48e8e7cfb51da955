// A fresh audio gain control, and the rules on its settings.
ghost use Rattle.std.specs.Prelude.{◌≡◌};
ghost use Rattle.audio_agc.specs.Made.{hang_of, hang_met, made};

use crate::{AudioAgc, AudioAgcDone};
use stage::Refusal;

// How long a gain hangs, in milliseconds, and the rate of the samples in Hz.
#[derive(Clone, Copy)]
struct Hang {
    time_ms: f32,
    rate: f32,
}

impl AudioAgc {
    // A fresh state, with a gain of 1 and an envelope of 0, that hangs for hang_time_ms at this sample rate.
    // SETTING unless target and floor are finite and above 0, attack and decay lie from 0 to 1, the time is
    // finite and not below 0, the rate finite and above 0, and the hang time in samples below 16,777,216;
    // the record is then one of zeros.
    pub fn new(
        target: f32,
        attack: f32,
        decay: f32,
        hang_time_ms: f32,
        sample_rate: f32,
        min_magnitude: f32,
    ) -> AudioAgcDone
        ensures { result ≡ made target attack decay hang_time_ms sample_rate min_magnitude }
    {
        let hang = Hang {
            time_ms: hang_time_ms,
            rate: sample_rate,
        };
        let fresh = AudioAgc {
            gain: 1.0,
            target,
            attack,
            decay,
            min_magnitude,
            hang_time_samples: number::whole::whole(hang.samples()),
            hang_counter: 0,
            envelope: 0.0,
        };
        if fresh.levels() & hang.allowed() {
            fresh.answer(stage::NONE, 0)
        } else {
            AudioAgc::default().answer(u32::from(Refusal::Setting), 0)
        }
    }
}

impl Hang {
    // In samples, before it is cut to a whole number.
    fn samples(self) -> f32
        ensures { result ≡ hang_of self.time_ms self.rate }
    {
        self.time_ms * self.rate / 1000.0
    }

    // Whether a gain may hang so long: not where a NaN, an infinity or an overflowing product comes in.
    fn allowed(self) -> bool
        ensures { result ≡ hang_met self.time_ms self.rate }
    {
        let given = stage::not_negative(self.time_ms) & stage::positive(self.rate);
        given & (self.samples() < 16777216.0)
    }
}
