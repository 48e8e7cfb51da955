// I, delayed, with the Hilbert filter's sums over Q, which stand in the output already.
ghost use Rattle.std.specs.Prelude.{◌≡◌, length};
ghost use Rattle.fir.specs.Each.{each_outs};
ghost use Rattle.ssb.specs.Sideband.{delay, mixed};
ghost use Rattle.ssb.specs.Ready.{Makes};

// The sum is added to the delayed I for the upper sideband, subtracted for the lower.
pub(crate) fn mix_delayed(is_usb: bool, i_history: &[f32], i: &[f32], output: &mut [f32])
    requires { (length i_history.now ≡ 32) × (length i.now ≡ length output.old) }
    ensures { output.new ≡ mixed is_usb (each_outs (delay 32) i_history.now i.now) output.old }
{
    if is_usb {
        delay_and_mix(|i, sum| i + sum, i_history, i, output);
    } else {
        delay_and_mix(|i, sum| i - sum, i_history, i, output);
    }
}

// The delayed I are the history and then the block's own, as far as the output goes. `of_sum` makes an output of an I
// and its sum.
fn delay_and_mix<F: Fn(f32, f32) -> f32 + Copy>(
    of_sum: F,
    i_history: &[f32],
    i: &[f32],
    output: &mut [f32],
)
    requires lengths { (length i_history.now ≡ 32) × (length i.now ≡ length output.old) }
    requires callable { F.IsAlwaysCallable of_sum }
    ensures { (usb : _) → Makes (F.post of_sum) usb → output.new ≡ mixed usb (each_outs (delay 32) i_history.now i.now) output.old }
{
    let first = i.len().min(32);
    mix(of_sum, &i_history[..first], &mut output[..first]);
    mix(of_sum, &i[..i.len() - first], &mut output[first..]);
}

// Each sum becomes the output that it gives with its I.
fn mix<F: Fn(f32, f32) -> f32>(of_sum: F, delayed: &[f32], sums: &mut [f32])
    requires lengths { length delayed.now ≡ length sums.old }
    requires callable { F.IsAlwaysCallable of_sum }
    ensures { (usb : _) → Makes (F.post of_sum) usb → sums.new ≡ mixed usb delayed.now sums.old }
{
    for k in 0..delayed.len() {
        sums[k] = of_sum(delayed[k], sums[k]);
    }
}
