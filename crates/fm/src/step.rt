// One pair of the FM demodulator, from its angle on: the angle depends on the pair alone.
ghost use Rattle.std.specs.Prelude.{◌≡◌, cond};
ghost use Rattle.std.specs.Float.Ieee.{lt, neg};
ghost use Rattle.angle.specs.Single.{PI32};
ghost use Rattle.fm.specs.Step.{wrapped, from_angle};

use crate::FmDemodulator;
use number::kinds::Real;
use stage::Feedback;

// The step from an angle.
#[tactic(auto, unfolding(crate::specs::Step::fm_step, crate::specs::Step::smoothed))]
impl Feedback<f32, f32> for FmDemodulator {
    ghost answer = { from_angle };

    fn step(self, phase: f32) -> Option<(f32, FmDemodulator)> {
        let diff = wrap(phase - self.last_phase);
        let state = stage::blend(self.deemph_alpha, self.deemph_state, diff);
        let out = state / angle::single::PI;
        let kept = stage::both_finite(phase, state) & out.finite();
        let after = FmDemodulator {
            last_phase: phase,
            deemph_state: state,
            ..self
        };
        kept.then_some((out, after))
    }
}

// 2 x PI taken off above PI, or put on below -PI. Both are worked out before one is taken, so that noise, which
// wraps now and then, meets no branch.
#[tactic(auto, unfolding(crate::specs::Step::wrapped))]
fn wrap(d: f32) -> f32
    ensures { result ≡ wrapped d }
{
    nearest_turn(d, d - angle::single::TWO_PI, d + angle::single::TWO_PI)
}

// `less` where d is above PI, `more` where it is below -PI, else d.
fn nearest_turn(d: f32, less: f32, more: f32) -> f32
    ensures { result ≡ cond (lt PI32 d) less (cond (lt d (neg PI32)) more d) }
{
    if d > angle::single::PI {
        less
    } else if d < -angle::single::PI {
        more
    } else {
        d
    }
}
