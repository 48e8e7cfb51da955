// The design: each place's sinc times its window, then all divided by their sum.
ghost use Rattle.std.specs.Prelude.{◌≡◌, map, ◌-◌, ◌<◌, ◌≤◌, length};
ghost use Rattle.lowpass.specs.Lowpass.{sinc, hamming, unscaled, shapes, total, divided_by, lowpass, designed};

// Writes the taps of a lowpass filter with this cutoff, as many as the slice has places. Answers the number
// of the refusal, 0 for none: SETTING where the number of taps or the cutoff is not allowed.
// Stays: C gets the number (`tl_design_lowpass`), and the clause speaks of it.
pub fn design_lowpass(taps: &mut [f32], cutoff: f32) -> u32
    ensures { (result, taps.new) ≡ designed taps.old cutoff }
{
    let allowed = crate::rules::taps_allowed(taps.len()) & crate::rules::cutoff_allowed(cutoff);
    if let Err(refusal) = stage::demands(allowed, true, true, true, true) {
        return u32::from(refusal);
    }
    fill(taps, cutoff);
    stage::NONE
}

fn fill(taps: &mut [f32], cutoff: f32)
    requires { length taps.old ≤ 769 }
    ensures { taps.new ≡ lowpass (length taps.old) cutoff }
{
    shape(taps, cutoff);
    let sum = sum_of(taps);
    scale(taps, sum);
}

fn shape(taps: &mut [f32], cutoff: f32)
    requires { length taps.old ≤ 769 }
    ensures { taps.new ≡ shapes (length taps.old) cutoff }
{
    for i in 0..taps.len() {
        taps[i] = Place { n: taps.len(), i }.tap(cutoff);
    }
}

fn sum_of(taps: &[f32]) -> f32
    ensures { result ≡ total taps.now }
{
    let mut sum = 0.0;
    for t in taps {
        sum += *t;
    }
    sum
}

fn scale(taps: &mut [f32], sum: f32)
    ensures { taps.new ≡ map (divided_by sum) taps.old }
{
    for t in taps.iter_mut() {
        *t /= sum;
    }
}

// Place i of n taps.
#[derive(Clone, Copy)]
struct Place {
    n: usize,
    i: usize,
    ghost few: { n ≤ 769 },
    ghost within: { i < n },
}

impl Place {
    // The tap, before the scaling.
    fn tap(self, cutoff: f32) -> f32
        ensures { result ≡ unscaled (self.n - 1) cutoff self.i }
    {
        sinc_at(cutoff, self.i as f32 - (self.n - 1) as f32 / 2.0) * self.window()
    }

    fn window(self) -> f32
        ensures { result ≡ hamming (self.n - 1) self.i }
    {
        0.54 - 0.46
            * angle::single::cosine_f32(angle::single::TWO_PI * self.i as f32 / (self.n - 1) as f32)
    }
}

fn sinc_at(cutoff: f32, n: f32) -> f32
    ensures { result ≡ sinc cutoff n }
{
    if n == 0.0 {
        return 2.0 * cutoff;
    }
    angle::single::sine_f32(angle::single::TWO_PI * cutoff * n) / (angle::single::PI * n)
}
