// Outputs that are summed 32 at a time, written to a slice that may end within 32.
ghost use Rattle.std.specs.Prelude.{◌≡◌, ℕ, ◌<◌, Float, length};
ghost use Rattle.stage.specs.Counted.{counted};
ghost use Rattle.fir.specs.Planes.{Gives};

// Fills the slice: `sums` gives the 32 outputs from output g on.
pub(crate) fn by_32<F: Fn(usize) -> [f32; 32]>(sums: F, output: &mut [f32])
    requires { (g : ℕ) → g < length output.old → F.pre sums g }
    ensures { (v : ℕ → Float) → Gives (F.post sums) v (length output.old) → output.new ≡ counted v (length output.old) }
{
    for b in 0..output.len().div_ceil(32) {
        let g = 32 * b;
        let end = output.len().min(g + 32);
        let acc = sums(g);
        output[g..end].copy_from_slice(&acc[..end - g]);
    }
}
