// The rules on a receiver's settings, floats and lengths, and the answer without sound.
ghost use Rattle.std.specs.Prelude.{◌≡◌, length};
ghost use Rattle.receiver.specs.Rules.{setting_met, state_met, lengths_fit};
ghost use Rattle.receiver.specs.Answers.{answer};

use crate::{Received, Receiver};

// Stays: fm's own rules are private; a public pair would be two calls more for this one caller.
impl Receiver {
    // Whether the phase is below ten and the demodulator's alpha is from 0 to 1.
    pub(crate) fn setting(self) -> bool
        ensures { result ≡ setting_met self }
    {
        (self.phase < 10) & stage::in_unit(self.fm.deemph_alpha)
    }

    // Whether the demodulator's angle and de-emphasis are finite.
    pub(crate) fn state(self) -> bool
        ensures { result ≡ state_met self }
    {
        stage::both_finite(self.fm.last_phase, self.fm.deemph_state)
    }

    // The answer of a call that gives no sound.
    pub(crate) fn silent(self, refusal: u32) -> Received
        ensures { result ≡ answer refusal self 0 }
    {
        Received {
            refusal,
            state: self,
            count: 0,
        }
    }
}

// Stays: `ssb` has such a rule too, with other lengths; one for both would be given all six numbers.
// Whether there are 121 taps, 12 for each of the ten and one, and 120 places in either history.
pub(crate) fn lengths_fit(taps: &[f32], i_history: &[f32], q_history: &[f32]) -> bool
    ensures { result ≡ lengths_fit (length taps.now) (length i_history.now) (length q_history.now) }
{
    (taps.len() == 121) & (i_history.len() == 120) & (q_history.len() == 120)
}
