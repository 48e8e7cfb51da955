// The number work under the stages, for C.
ghost use Rattle.std.specs.Prelude.{◌≡◌};
ghost use Rattle.std.specs.Float.{binary32};
ghost use Rattle.std.specs.Float.Ieee.{to_unsigned};
ghost use Rattle.std.specs.Float.Ieee.Scale.{finite};
ghost use Rattle.number.specs.Kinds.{absolute};
ghost use Rattle.number.specs.Narrow.{narrowed};
ghost use Rattle.root.specs.Root.{rooted};
ghost use Rattle.angle.specs.Turn.{sined, cosined};
ghost use Rattle.angle.specs.Arc.{arctan};

#[unsafe(no_mangle)]
pub extern "C" fn tl_sqrt(x: f32) -> f32
    ensures { result ≡ rooted binary32 x }
{
    threshlantern::numbers::tl_sqrt(x)
}

#[unsafe(no_mangle)]
pub extern "C" fn tl_narrow(x: f64) -> f32
    ensures { result ≡ narrowed x }
{
    threshlantern::numbers::tl_narrow(x)
}

// The same answer by the other method, the one for loops with a feedback.
#[unsafe(no_mangle)]
pub extern "C" fn tl_narrow_alone(x: f64) -> f32
    ensures { result ≡ narrowed x }
{
    threshlantern::numbers::tl_narrow_alone(x)
}

#[unsafe(no_mangle)]
pub extern "C" fn tl_widen(x: f32) -> f64
    ensures { result ≡ x }
{
    threshlantern::numbers::tl_widen(x)
}

#[unsafe(no_mangle)]
pub extern "C" fn tl_whole(x: f32) -> usize
    ensures { result ≡ to_unsigned 64 x }
{
    threshlantern::numbers::tl_whole(x)
}

#[unsafe(no_mangle)]
pub extern "C" fn tl_finite_f32(x: f32) -> bool
    ensures { result ≡ finite x }
{
    threshlantern::numbers::tl_finite_f32(x)
}

#[unsafe(no_mangle)]
pub extern "C" fn tl_finite_f64(x: f64) -> bool
    ensures { result ≡ finite x }
{
    threshlantern::numbers::tl_finite_f64(x)
}

#[unsafe(no_mangle)]
pub extern "C" fn tl_magnitude_f32(x: f32) -> f32
    ensures { result ≡ absolute x }
{
    threshlantern::numbers::tl_magnitude_f32(x)
}

#[unsafe(no_mangle)]
pub extern "C" fn tl_magnitude_f64(x: f64) -> f64
    ensures { result ≡ absolute x }
{
    threshlantern::numbers::tl_magnitude_f64(x)
}

#[unsafe(no_mangle)]
pub extern "C" fn tl_sine(x: f64) -> f64
    ensures { result ≡ sined x }
{
    threshlantern::numbers::tl_sine(x)
}

#[unsafe(no_mangle)]
pub extern "C" fn tl_cosine(x: f64) -> f64
    ensures { result ≡ cosined x }
{
    threshlantern::numbers::tl_cosine(x)
}

#[unsafe(no_mangle)]
pub extern "C" fn tl_arctangent(y: f64, x: f64) -> f64
    ensures { result ≡ arctan y x }
{
    threshlantern::numbers::tl_arctangent(y, x)
}

#[unsafe(no_mangle)]
pub extern "C" fn tl_sine_f32(x: f32) -> f32
    ensures { result ≡ narrowed (sined x) }
{
    threshlantern::numbers::tl_sine_f32(x)
}

#[unsafe(no_mangle)]
pub extern "C" fn tl_cosine_f32(x: f32) -> f32
    ensures { result ≡ narrowed (cosined x) }
{
    threshlantern::numbers::tl_cosine_f32(x)
}

#[unsafe(no_mangle)]
pub extern "C" fn tl_arctangent_f32(y: f32, x: f32) -> f32
    ensures { result ≡ narrowed (arctan y x) }
{
    threshlantern::numbers::tl_arctangent_f32(y, x)
}
