// One step of the gain control: the gain after a pair, and the pair times that gain.
ghost use Rattle.std.specs.Prelude.{◌≡◌};
ghost use Rattle.agc.specs.Gain.{magnitude_of, error_of, weight_of, gain_after};
ghost use Rattle.agc.specs.Step.{agc_answer};

use crate::Agc;
use number::kinds::Real;
use stage::Feedback;

// The step of `process`: I and Q are one pair.
#[tactic(auto, unfolding(crate::specs::Step::agc_answer))]
impl Feedback<(f32, f32), (f32, f32)> for Agc {
    ghost answer = { agc_answer };

    fn step(self, (i, q): (f32, f32)) -> Option<((f32, f32), Agc)> {
        let gain = gain_after(self, magnitude(i, q));
        let out_i = i * gain;
        let out_q = q * gain;
        let kept = stage::both_finite(out_i, out_q) & gain.finite();
        kept.then_some(((out_i, out_q), Agc { gain, ..self }))
    }
}

// Stays: one line here and in `am`; a function for both would stand in a third crate.
fn magnitude(i: f32, q: f32) -> f32
    ensures { result ≡ magnitude_of i q }
{
    root::sqrt(i * i + q * q)
}

// The gain after a pair of this magnitude.
#[tactic(auto, unfolding(crate::specs::Gain::gain_after))]
fn gain_after(s: Agc, mag: f32) -> f32
    ensures { result ≡ gain_after s mag }
{
    let error = s.target / (mag + 1e-6);
    stage::blend(weight(s, error), s.gain, error)
}

// Attack where the gain has to fall, and decay otherwise, also for a NaN.
fn weight(s: Agc, error: f32) -> f32
    ensures { result ≡ weight_of s error }
{
    if error < s.gain { s.attack } else { s.decay }
}
