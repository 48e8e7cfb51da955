// The f32 forms: widened first, narrowed last.
ghost use Rattle.std.specs.Prelude.{◌≡◌};
ghost use Rattle.angle.specs.Single.{sine32, cosine32, arctan32};

pub const PI: f32 = 3.1415927;

pub const TWO_PI: f32 = 6.2831855;

// Stays: C has each of the three (`tl_sine_f32` and so on), and each is one line.
// The sine of x; NaN where x is not finite.
pub fn sine_f32(x: f32) -> f32
    ensures { result ≡ sine32 x }
{
    number::narrow::narrow(crate::turn::sine(number::widen::widen(x)))
}

// The cosine of x; NaN where x is not finite.
pub fn cosine_f32(x: f32) -> f32
    ensures { result ≡ cosine32 x }
{
    number::narrow::narrow(crate::turn::cosine(number::widen::widen(x)))
}

// The arctangent of (y, x); NaN where either is NaN.
pub fn arctangent_f32(y: f32, x: f32) -> f32
    ensures { result ≡ arctan32 y x }
{
    number::narrow::narrow(crate::arc::arctangent(number::widen::widen(y), number::widen::widen(x)))
}
