// One pair of the AM demodulator: its magnitude, which depends on the pair alone, the mean, and the high-pass.
ghost use Rattle.std.specs.Prelude.{◌≡◌};
ghost use Rattle.am.specs.Step.{size_of, mean_after, am_answer};

use crate::AmDemodulator;
use number::kinds::Real;
use stage::Feedback;

// The step of `process_into`.
#[tactic(auto, unfolding(crate::specs::Step::am_step, crate::specs::Step::passed))]
impl Feedback<(f32, f32), f32> for AmDemodulator {
    ghost answer = { am_answer };

    fn step(self, (i, q): (f32, f32)) -> Option<(f32, AmDemodulator)> {
        let size = magnitude(i, q);
        let mean = mean_after(self, size);
        let envelope = size - mean;
        let state = stage::blend(self.hp_alpha, self.hp_state, envelope);
        let out = envelope - state;
        let after = AmDemodulator {
            dc_mean: mean,
            hp_state: state,
            ..self
        };
        let kept = stage::both_finite(mean, state) & out.finite();
        kept.then_some((out, after))
    }
}

#[tactic(auto, unfolding(crate::specs::Step::size_of))]
// Stays: one line here and in `agc`; a function for both would stand in a third crate.
fn magnitude(i: f32, q: f32) -> f32
    ensures { result ≡ size_of (i, q) }
{
    root::sqrt(i * i + q * q)
}

// A mean that equals 0, -0.0 too, is seeded.
#[tactic(auto, unfolding(crate::specs::Step::mean_after))]
fn mean_after(s: AmDemodulator, size: f32) -> f32
    ensures { result ≡ mean_after s size }
{
    if s.dc_mean == 0.0 {
        return size;
    }
    stage::blend(s.dc_alpha, s.dc_mean, size)
}
