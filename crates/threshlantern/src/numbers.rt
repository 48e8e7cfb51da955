// The number work under the stages, under C names.
// Stays: C has no generic function, and the names are the header's, so each width has its own.
ghost use Rattle.std.specs.Prelude.{◌≡◌};
ghost use Rattle.std.specs.Float.{binary32};
ghost use Rattle.std.specs.Float.Ieee.{to_unsigned};
ghost use Rattle.std.specs.Float.Ieee.Scale.{finite};
ghost use Rattle.number.specs.Kinds.{absolute};
ghost use Rattle.number.specs.Narrow.{narrowed};
ghost use Rattle.root.specs.Root.{rooted};
ghost use Rattle.angle.specs.Turn.{sined, cosined};
ghost use Rattle.angle.specs.Arc.{arctan};

use number::kinds::Real;

#[unsafe(no_mangle)]
pub extern "C" fn tl_sqrt(x: f32) -> f32
    ensures { result ≡ rooted binary32 x }
{
    root::sqrt(x)
}

#[unsafe(no_mangle)]
pub extern "C" fn tl_narrow(x: f64) -> f32
    ensures { result ≡ narrowed x }
{
    number::narrow::narrow(x)
}

// The same answer by the other method, the one for loops with a feedback.
#[unsafe(no_mangle)]
pub extern "C" fn tl_narrow_alone(x: f64) -> f32
    ensures { result ≡ narrowed x }
{
    number::alone::narrow(x)
}

#[unsafe(no_mangle)]
pub extern "C" fn tl_widen(x: f32) -> f64
    ensures { result ≡ x }
{
    number::widen::widen(x)
}

#[unsafe(no_mangle)]
pub extern "C" fn tl_whole(x: f32) -> usize
    ensures { result ≡ to_unsigned 64 x }
{
    number::whole::whole(x)
}

#[unsafe(no_mangle)]
pub extern "C" fn tl_finite_f32(x: f32) -> bool
    ensures { result ≡ finite x }
{
    x.finite()
}

#[unsafe(no_mangle)]
pub extern "C" fn tl_finite_f64(x: f64) -> bool
    ensures { result ≡ finite x }
{
    x.finite()
}

#[unsafe(no_mangle)]
pub extern "C" fn tl_magnitude_f32(x: f32) -> f32
    ensures { result ≡ absolute x }
{
    x.magnitude()
}

#[unsafe(no_mangle)]
pub extern "C" fn tl_magnitude_f64(x: f64) -> f64
    ensures { result ≡ absolute x }
{
    x.magnitude()
}

#[unsafe(no_mangle)]
pub extern "C" fn tl_sine(x: f64) -> f64
    ensures { result ≡ sined x }
{
    angle::turn::sine(x)
}

#[unsafe(no_mangle)]
pub extern "C" fn tl_cosine(x: f64) -> f64
    ensures { result ≡ cosined x }
{
    angle::turn::cosine(x)
}

#[unsafe(no_mangle)]
pub extern "C" fn tl_arctangent(y: f64, x: f64) -> f64
    ensures { result ≡ arctan y x }
{
    angle::arc::arctangent(y, x)
}

#[unsafe(no_mangle)]
pub extern "C" fn tl_sine_f32(x: f32) -> f32
    ensures { result ≡ narrowed (sined x) }
{
    angle::single::sine_f32(x)
}

#[unsafe(no_mangle)]
pub extern "C" fn tl_cosine_f32(x: f32) -> f32
    ensures { result ≡ narrowed (cosined x) }
{
    angle::single::cosine_f32(x)
}

#[unsafe(no_mangle)]
pub extern "C" fn tl_arctangent_f32(y: f32, x: f32) -> f32
    ensures { result ≡ narrowed (arctan y x) }
{
    angle::single::arctangent_f32(y, x)
}
