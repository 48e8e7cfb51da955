// The rules on a decimator's settings, and its answers.
ghost use Rattle.std.specs.Prelude.{◌≡◌};
ghost use Rattle.decimator.specs.Rules.{factor_allowed, state_allowed};
ghost use Rattle.decimator.specs.Answers.{answer};

use crate::{Decimated, Decimator};

// Whether the factor is from 2 to 64.
pub(crate) fn factor_allowed(factor: usize) -> bool
    ensures { result ≡ factor_allowed factor }
{
    (2 <= factor) & (factor <= 64)
}

impl Decimator {
    // Whether a decimator that is handed in with this number of taps obeys the rules: its phase is below its factor.
    pub(crate) fn state_allowed(self, taps: usize) -> bool
        ensures { result ≡ state_allowed self taps }
    {
        factor_allowed(self.factor) & (self.phase < self.factor) & lowpass::taps_allowed(taps)
    }

    // This decimator in an answer.
    pub(crate) fn answer(self, refusal: u32, count: usize) -> Decimated
        ensures { result ≡ answer refusal self count }
    {
        Decimated {
            refusal,
            state: self,
            count,
        }
    }
}
