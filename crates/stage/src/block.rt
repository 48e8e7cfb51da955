// A block of floats: whether each is finite, and a copy of it.
ghost use Rattle.std.specs.Prelude.{◌≡◌};
ghost use Rattle.stage.specs.Floats.{all_finite};
ghost use Rattle.stage.specs.Layout.{copied};

use number::kinds::Real;

// Whether each is finite. Without a branch, so that several are tested side by side: `all` would stop at the first
// that is not.
pub fn all_finite(xs: &[f32]) -> bool
    ensures { result ≡ all_finite xs.now }
{
    let mut all = true;
    for x in xs {
        all = all & x.finite();
    }
    all
}

// Writes `from` to a slice that has as many places; else nothing.
pub fn copy(from: &[f32], to: &mut [f32])
    ensures { to.new ≡ copied from.now to.old }
{
    if from.len() == to.len() {
        to.copy_from_slice(from);
    }
}
