// The angle of a slope: the smaller of two magnitudes divided by the greater, and the angle whose tangent that is.
//
// The parts 1/3, 1/5, .. 1/31 are written as the quotients that a rounded division gives; the proof of
// `arc_series` computes each division anew. Where one of two values is taken both are worked out, and `pick`
// takes one: so there is no branch, and several slopes can be worked side by side.
ghost use Rattle.std.specs.Prelude.{◌≡◌};
ghost use Rattle.angle.specs.Arc.{odds, odd_numbers, base, inner, flat, quotient, smaller, greater};
ghost use Rattle.angle.specs.Parts.{ratio};

use crate::pick;
use number::kinds::Real;

const QUARTER: f64 = 0.7853981633974483;

const BOUND: f64 = 0.41421356237309503;

// The smaller magnitude divided by the greater.
pub(crate) fn ratio_of(y: f64, x: f64) -> f64
    ensures { result ≡ ratio y x }
{
    let b = y.magnitude();
    let c = x.magnitude();
    divided(smaller_of(b, c), greater_of(b, c))
}

// The quotient, but 0 where both are zero and 1 where both are infinite.
#[tactic(auto, using(number::proofs::Nan::infinity_f64), unfolding(crate::specs::Arc::quotient))]
fn divided(small: f64, great: f64) -> f64
    ensures { result ≡ quotient small great }
{
    pick(
        great == 0.0,
        0.0,
        pick(small == f64::INFINITY, 1.0, small / great),
    )
}

#[tactic(auto, unfolding(crate::specs::Arc::smaller))]
fn smaller_of(y: f64, x: f64) -> f64
    ensures { result ≡ smaller y x }
{
    pick(y > x, x, y)
}

#[tactic(auto, unfolding(crate::specs::Arc::greater))]
fn greater_of(y: f64, x: f64) -> f64
    ensures { result ≡ greater y x }
{
    pick(y > x, y, x)
}

// The angle whose tangent is q, from 0 to 1.
#[tactic(auto, unfolding(crate::specs::Arc::flat))]
pub(crate) fn flat_angle(q: f64) -> f64
    ensures { result ≡ flat q }
{
    let u = inner_of(q);
    base_of(q) + u * arc_series(u * u)
}

#[tactic(auto, unfolding(crate::specs::Arc::base))]
fn base_of(q: f64) -> f64
    ensures { result ≡ base q }
{
    pick(q > BOUND, QUARTER, 0.0)
}

#[tactic(auto, unfolding(crate::specs::Arc::inner))]
fn inner_of(q: f64) -> f64
    ensures { result ≡ inner q }
{
    pick(q > BOUND, (q - 1.0) / (q + 1.0), q)
}

fn arc_series(w: f64) -> f64
    ensures { result ≡ odds w odd_numbers }
{
    let t = 0.034482758620689655 - w * 0.03225806451612903;
    let t = 0.037037037037037035 - w * t;
    let t = 0.04 - w * t;
    let t = 0.043478260869565216 - w * t;
    let t = 0.047619047619047616 - w * t;
    let t = 0.05263157894736842 - w * t;
    let t = 0.058823529411764705 - w * t;
    let t = 0.06666666666666667 - w * t;
    let t = 0.07692307692307693 - w * t;
    let t = 0.09090909090909091 - w * t;
    let t = 0.1111111111111111 - w * t;
    let t = 0.14285714285714285 - w * t;
    let t = 0.2 - w * t;
    let t = 0.3333333333333333 - w * t;
    1.0 - w * t
}
