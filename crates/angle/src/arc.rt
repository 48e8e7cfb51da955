// The arctangent of a pair: the angle from the x axis to the point (x, y), from -PI to PI.
//
// `flat` has the angle of the slope; here it is turned to where the point lies. A later request gives the answer
// another form, so callers use `arctangent` alone. There is no branch: where one of two values is taken both are
// worked out, and `pick` takes one.
ghost use Rattle.std.specs.Prelude.{◌≡◌, cond};
ghost use Rattle.std.specs.Float.{binary64};
ghost use Rattle.std.specs.Float.Ieee.{sub, lt};
ghost use Rattle.angle.specs.Numbers.{half};
ghost use Rattle.angle.specs.Arc.{mirrored, turned, arctan};
ghost use Rattle.angle.specs.Parts.{pointed};

use crate::pick;
use number::kinds::Real;

const HALF: f64 = 1.5707963267948966;

// The arctangent of (y, x); NaN where either is NaN.
#[tactic(auto, unfolding(crate::specs::Arc::arctan, crate::specs::Arc::steep))]
pub fn arctangent(y: f64, x: f64) -> f64
    ensures { result ≡ arctan y x }
{
    angle_to(y, x, crate::flat::flat_angle(crate::flat::ratio_of(y, x)))
}

// From the angle of the ratio to that of the point; NaN where either is NaN.
#[tactic(auto, using(number::proofs::Nan::nan_f64, number::proofs::Nan::differs_is_nan))]
pub(crate) fn angle_to(y: f64, x: f64, a: f64) -> f64
    ensures { result ≡ pointed y x a }
{
    let b = steepened(y.magnitude(), x.magnitude(), a);
    pick((y != y) | (x != x), f64::NAN, turn_to(y, x, b))
}

// From two magnitudes: PI / 2 - a where y is the greater, else a.
fn steepened(y: f64, x: f64, a: f64) -> f64
    ensures { result ≡ cond (lt x y) (sub binary64 half a) a }
{
    pick(y > x, HALF - a, a)
}

// From the first quarter to the one where the point lies, by the sign bits of x and of y.
#[tactic(auto, unfolding(crate::specs::Arc::turned))]
fn turn_to(y: f64, x: f64, a: f64) -> f64
    ensures { result ≡ turned y x a }
{
    let b = mirror(x, a);
    pick(y.negative(), -b, b)
}

#[tactic(auto, unfolding(crate::specs::Arc::mirrored))]
fn mirror(x: f64, a: f64) -> f64
    ensures { result ≡ mirrored x a }
{
    pick(x.negative(), crate::turn::PI - a, a)
}
