// The rules on settings that several stages share. NaN breaks each.
// `&` and not `&&`: without a branch the body is the definition as it stands.
ghost use Rattle.std.specs.Prelude.{◌≡◌};
ghost use Rattle.stage.specs.Settings.{in_unit, is_positive, not_negative};

use number::kinds::Real;

// From 0 to 1, both ends allowed; -0.0 equals 0 and is allowed.
pub fn in_unit(x: f32) -> bool
    ensures { result ≡ in_unit x }
{
    (0.0 <= x) & (x <= 1.0)
}

// Finite and above 0, as neither 0.0 nor -0.0 is.
pub fn positive<F: Real>(x: F) -> bool
    ensures { result ≡ is_positive (F.value x) }
{
    x.finite() & (0.0 < x.wide())
}

// Finite and not below 0; -0.0 equals 0 and is allowed.
pub fn not_negative(x: f32) -> bool
    ensures { result ≡ not_negative x }
{
    x.finite() & (0.0 <= x)
}
