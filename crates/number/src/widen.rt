// An f32 as an f64. Every f32 is an f64, so nothing is rounded.
ghost use Rattle.std.specs.Prelude.{◌≡◌};

use crate::kinds::Real;

// The same value; NaN for NaN.
pub fn widen(x: f32) -> f64
    ensures { result ≡ x }
{
    x.wide()
}
