// The rule on a Hilbert filter's number of taps, and the answer without outputs.
ghost use Rattle.std.specs.Prelude.{◌≡◌};
ghost use Rattle.hilbert.specs.Rules.{taps_allowed};
ghost use Rattle.hilbert.specs.Answers.{answer};

use crate::HilbertDone;

// Whether a filter may have n taps: odd, from 3 to 129.
pub fn taps_allowed(n: usize) -> bool
    ensures { result ≡ taps_allowed n }
{
    stage::odd_up_to(n, 129)
}

// The answer of a call that gives no output.
pub(crate) fn answer_of(number: u32) -> HilbertDone
    ensures { result ≡ answer number 0 }
{
    HilbertDone {
        refusal: number,
        count: 0,
    }
}
