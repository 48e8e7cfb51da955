// Sine, cosine and arctangent by document 01's own steps.
//
// Document 01, "Numbers under the stages": each step is one rounded f64 operation, over the full range of
// finite arguments; what is not finite gives NaN. The f32 forms widen first and narrow last. The
// definitions stand in `specs/Turn.antt` (reduction, sine, cosine) and `specs/Arc.antt` (arctangent),
// worked values in `specs/Cases.antt`. `flat` has the angle of a slope, of which `arc` makes the arctangent, and
// `lanes` works out four arctangents side by side. No public function here has a `requires`.
#![tactic(auto)]

ghost use Rattle.std.specs.Prelude.{◌≡◌, cond};

pub mod arc;
mod flat;
pub mod lanes;
mod rest;
pub mod single;
pub mod turn;

// `then` where the test holds, else `other`. Both are worked out before the call, so that there is no branch.
fn pick(test: bool, then: f64, other: f64) -> f64
    ensures { result ≡ cond test then other }
{
    if test { then } else { other }
}
