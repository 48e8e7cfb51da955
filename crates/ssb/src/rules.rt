// The rule on the lengths of a demodulator's slices, and its answers.
ghost use Rattle.std.specs.Prelude.{◌≡◌, length};
ghost use Rattle.ssb.specs.Rules.{lengths_fit};
ghost use Rattle.ssb.specs.Answers.{answer};

use crate::{SsbDemodulator, SsbDone};
use fir::history_fits;

// Stays: `receiver` has such a rule too, with other lengths; one for both would be given all six numbers.
// Whether there are 65 taps, a history of Q of taps less one, and a history of I of 32.
pub(crate) fn lengths_fit(taps: &[f32], q_history: &[f32], i_history: &[f32]) -> bool
    ensures { result ≡ lengths_fit (length taps.now) (length q_history.now) (length i_history.now) }
{
    (taps.len() == 65) & history_fits(taps, q_history) & (i_history.len() == 32)
}

impl SsbDemodulator {
    // This demodulator in an answer.
    pub(crate) fn answer(self, refusal: u32, count: usize) -> SsbDone
        ensures { result ≡ answer refusal self count }
    {
        SsbDone {
            refusal,
            state: self,
            count,
        }
    }
}
