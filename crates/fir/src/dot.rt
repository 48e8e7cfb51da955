// Sums of products: each product and each sum rounded once, in index order.
ghost use Rattle.std.specs.Prelude.{◌≡◌, ◌+◌, ◌*◌, ◌≤◌, length};
ghost use Rattle.stage.specs.Counted.{counted};
ghost use Rattle.fir.specs.Dot.{dot_from};
ghost use Rattle.fir.specs.Written.{dots_of};

use crate::lanes::turn;

// acc, and then each sample times its tap.
pub(crate) fn dot_from(acc: f32, xs: &[f32], ts: &[f32]) -> f32
    requires { length ts.now ≤ length xs.now }
    ensures { result ≡ dot_from acc xs.now ts.now }
{
    let mut sum = acc;
    for (i, t) in ts.iter().enumerate() {
        sum += xs[i] * *t;
    }
    sum
}

// Four sums side by side, of windows `factor` apart: no sum waits for another, and each is what `dot_from` gives.
pub(crate) fn dot_four(x: &[f32], factor: usize, ts: &[f32]) -> [f32; 4]
    requires { (factor ≤ 64) × (3 * factor + length ts.now ≤ length x.now) }
    ensures { result ≡ counted (dots_of ts.now x.now factor) 4 }
{
    let mut sums = [0.0f32; 4];
    for (i, t) in ts.iter().enumerate() {
        turn(&mut sums, x, i, factor, *t);
    }
    sums
}
