// What the step of a feedback stage is made of: the test that strikes a sample, and the blend.
ghost use Rattle.std.specs.Prelude.{◌≡◌};
ghost use Rattle.stage.specs.Floats.{both_finite, blend_of};

use number::kinds::Real;

// Whether both are finite. A step whose floats are not all finite strikes its sample.
pub fn both_finite(a: f32, b: f32) -> bool
    ensures { result ≡ both_finite a b }
{
    a.finite() & b.finite()
}

// The mean of `old` and `new` with the weights 1 - a and a, each operation rounded.
pub fn blend(a: f32, old: f32, new: f32) -> f32
    ensures { result ≡ blend_of a old new }
{
    (1.0 - a) * old + a * new
}
