// What x leaves when whole turns are taken off toward zero, Rust's `x % TAU`, on whole numbers: `%` of floats is the
// C library's `fmod`, and nothing here asks it.
ghost use Rattle.std.specs.Prelude.{◌≡◌, ◌*◌, ◌%◌, ◌^◌, ◌<◌};
ghost use Rattle.std.specs.Float.{binary64};
ghost use Rattle.std.specs.Float.Ieee.{rem};
ghost use Rattle.angle.specs.Numbers.{TAU};

use number::kinds::Real;

// TAU is so many parts of 2^-50.
const TURN: u64 = 7074237752028440;

// The field of an f64's exponent from 4 on.
const FOUR: u64 = 1025;

// Exact, with x's sign; NaN where x is not finite. Below 4 x is its own rest. From 4 on it is a whole number of those
// parts times a power of two.
pub(crate) fn rest(x: f64) -> f64
    ensures { result ≡ rem binary64 x TAU }
{
    if !x.finite() {
        return f64::NAN;
    }
    let b = f64::to_bits(x);
    let g = b % 0x8000_0000_0000_0000 / 0x10_0000_0000_0000;
    if g < FOUR {
        return x;
    }
    let r = doubled(b % 0x10_0000_0000_0000 + 0x10_0000_0000_0000, g - FOUR);
    if b >= 0x8000_0000_0000_0000 {
        return r as f64 * -8.881784197001252e-16;
    }
    r as f64 * 8.881784197001252e-16
}

// What m doubled n times leaves of whole turns.
fn doubled(m: u64, n: u64) -> u64
    ensures { result ≡ m * 2 ^ n % 7074237752028440 }
{
    let mut r = m % TURN;
    for _ in 0..n {
        r = 2 * r % TURN;
    }
    r
}
