// Sine and cosine: the angle is reduced to one turn, and a nested series worked from its last divisor
// to its first.
ghost use Rattle.std.specs.Prelude.{◌≡◌};
ghost use Rattle.angle.specs.Turn.{pulled, reduced, nested, sined, cosined};

pub const PI: f64 = 3.141592653589793;

pub const TAU: f64 = 6.283185307179586;

// 2k(2k + 1) for k from 1 to 13, and (2k - 1)2k for k from 1 to 14.
const SINE_DIVISORS: [u16; 13] = [6, 20, 42, 72, 110, 156, 210, 272, 342, 420, 506, 600, 702];

const COSINE_DIVISORS: [u16; 14] = [
    2, 12, 30, 56, 90, 132, 182, 240, 306, 380, 462, 552, 650, 756,
];

// The sine of x; NaN where x is not finite.
#[tactic(auto, unfolding(crate::specs::Turn::sined, crate::specs::Turn::sine_of))]
pub fn sine(x: f64) -> f64
    ensures { result ≡ sined x }
{
    let r = reduce(x);
    r * series(r * r, &SINE_DIVISORS)
}

// The cosine of x; NaN where x is not finite.
#[tactic(auto, unfolding(crate::specs::Turn::cosined, crate::specs::Turn::cosine_of))]
pub fn cosine(x: f64) -> f64
    ensures { result ≡ cosined x }
{
    let r = reduce(x);
    series(r * r, &COSINE_DIVISORS)
}

// x less whole turns, from -PI to PI; NaN where x is not finite. The remainder is exact.
#[tactic(auto, unfolding(crate::specs::Turn::reduced))]
pub fn reduce(x: f64) -> f64
    ensures { result ≡ reduced x }
{
    pull(crate::rest::rest(x))
}

// One turn taken off above PI, or put on below -PI; never at PI or -PI itself.
#[tactic(auto, unfolding(crate::specs::Turn::pulled))]
pub fn pull(r: f64) -> f64
    ensures { result ≡ pulled r }
{
    if r > PI {
        return r - TAU;
    }
    if r < -PI {
        return r + TAU;
    }
    r
}

// The series from its last divisor to its first, t = 1 - (z x t) / d at each.
fn series(z: f64, divisors: &[u16]) -> f64
    ensures { result ≡ nested z divisors.now }
{
    let n = divisors.len();
    let mut t = 1.0;
    for k in 0..n {
        t = 1.0 - (z * t) / divisors[n - 1 - k] as f64;
    }
    t
}
