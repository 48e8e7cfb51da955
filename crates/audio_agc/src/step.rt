// One step of the audio gain control: dead air, attack, hang or decay, and who is struck.
ghost use Rattle.std.specs.Prelude.{◌≡◌};
ghost use Rattle.stage.specs.Run.{answer_of};
ghost use Rattle.audio_agc.specs.Step.{keep_step, dead_step, live_step, audio_step};
ghost use Rattle.audio_agc.specs.Moved.{Moves};

use crate::{AudioAgc, level};
use number::kinds::Real;
use stage::Feedback;

// The step of `process`. An envelope below the floor is dead air.
#[tactic(auto, unfolding(crate::specs::Step::audio_step))]
impl Feedback<f32, f32> for AudioAgc {
    ghost answer = { audio_step };

    fn step(self, x: f32) -> Option<(f32, AudioAgc)> {
        let envelope = level::envelope_after(self.envelope, x.magnitude());
        if envelope < self.min_magnitude {
            self.dead(envelope, x)
        } else {
            self.live(envelope, x)
        }
    }
}

impl AudioAgc {
    // Dead air: the output is not clamped.
    #[tactic(auto, unfolding(crate::specs::Step::dead_step))]
    fn dead(self, envelope: f32, x: f32) -> Option<(f32, AudioAgc)>
        ensures { answer_of result ≡ dead_step self envelope x }
    {
        let gain = level::dead_gain(self.gain);
        let after = AudioAgc {
            gain,
            hang_counter: self.hang_counter.saturating_sub(1),
            envelope,
            ..self
        };
        keep(x * gain, after)
    }

    // A signal: the output is clamped to -1..1.
    fn live(self, envelope: f32, x: f32) -> Option<(f32, AudioAgc)>
        ensures { answer_of result ≡ live_step self envelope x }
    {
        let after = self.follow(envelope);
        keep(level::clamp(-1.0, 1.0, x * after.gain), after)
    }

    // The state after a signal of this envelope: the gain falls at once, hangs, then rises.
    pub(crate) fn follow(self, envelope: f32) -> AudioAgc
        ensures { Moves self envelope result }
    {
        let error = self.target / (envelope + 1e-6);
        if error < self.gain {
            return AudioAgc {
                gain: stage::blend(self.attack, self.gain, error),
                hang_counter: self.hang_time_samples,
                envelope,
                ..self
            };
        }
        if 0 < self.hang_counter {
            return AudioAgc {
                hang_counter: self.hang_counter - 1,
                envelope,
                ..self
            };
        }
        let part = level::slow_decay(self.decay, self.min_magnitude, envelope);
        AudioAgc {
            gain: stage::blend(part, self.gain, error),
            hang_counter: 0,
            envelope,
            ..self
        }
    }
}

// Struck, unless each float that is put out or stored is finite.
#[tactic(auto, unfolding(crate::specs::Step::keep_step))]
fn keep(out: f32, after: AudioAgc) -> Option<(f32, AudioAgc)>
    ensures { answer_of result ≡ keep_step out after }
{
    let kept = stage::both_finite(out, after.gain) & after.envelope.finite();
    kept.then_some((out, after))
}
