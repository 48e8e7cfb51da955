// The copy of samples into planes: plane p holds the samples p, p + factor, and so on in a row, so that the
// samples of neighbouring outputs are neighbours.
ghost use Rattle.std.specs.Prelude.{◌≡◌, ◌+◌, ◌*◌, ◌<◌, ◌≤◌, length};
ghost use Rattle.fir.specs.Planes.{Upto};

// Samples x, and z with their planes.
#[derive(Clone, Copy)]
pub(crate) struct Planes<'a> {
    pub(crate) z: &'a [f32],
    pub(crate) x: &'a [f32],
    pub(crate) factor: usize,
    ghost some: { 0 < factor },
    ghost most: { factor ≤ 64 },
    ghost room: { 128 * factor ≤ length z.now },
    ghost filled: { Upto z.now x.now factor (factor * 128) },
}

impl<'a> Planes<'a> {
    // All planes of x, filled.
    pub(crate) fn fill(z: &'a mut [f32], x: &'a [f32], factor: usize) -> Planes<'a>
        requires factor { (0 < factor) × (factor ≤ 64) }
        requires room { (length x.now ≤ 128 * factor) × (128 * factor ≤ length z.old) }
        ensures { (result.x.now ≡ x.now) × (result.factor ≡ factor) }
    {
        for p in 0..factor {
            plane(z, x, factor, p);
        }
        Planes { z, x, factor }
    }
}

// Plane p.
fn plane(z: &mut [f32], x: &[f32], factor: usize, p: usize)
    requires sizes { (p < factor) × (factor ≤ 64) × (length x.now ≤ 128 * factor) × (128 * factor ≤ length z.old) }
    requires filled { Upto z.old x.now factor (p * 128) }
    ensures { Upto z.new x.now factor (p * 128 + 128) }
{
    let rows = crate::counts::count(factor, p, x.len());
    for k in 0..rows {
        z[p * 128 + k] = x[k * factor + p];
    }
}
