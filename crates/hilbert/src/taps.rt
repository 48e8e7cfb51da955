// The taps of a Hilbert filter: 2 / (PI n) at odd distances n from the middle, under a Blackman-Harris window.
ghost use Rattle.std.specs.Prelude.{◌≡◌, ◌-◌, ◌/◌, ◌<◌, ◌≤◌, length};
ghost use Rattle.hilbert.specs.Taps.{ripple, blackman_harris, kernel, tap_at, hilbert_taps};

const SIX_PI: f32 = 18.849556;

const FOUR_PI: f32 = 12.566371;

// Writes the taps, as many as the slice has places.
pub(crate) fn design(taps: &mut [f32])
    requires { length taps.old ≤ 129 }
    ensures { taps.new ≡ hilbert_taps (length taps.old) }
{
    for i in 0..taps.len() {
        taps[i] = Place { n: taps.len(), i }.tap();
    }
}

// Place i of n taps.
#[derive(Clone, Copy)]
struct Place {
    n: usize,
    i: usize,
    ghost few: { n ≤ 129 },
    ghost within: { i < n },
}

impl Place {
    fn tap(self) -> f32
        ensures { result ≡ tap_at self.n self.i }
    {
        if (self.i + self.n / 2) % 2 == 1 {
            return self.ideal() * self.window();
        }
        0.0
    }

    // 2 / (PI x distance from the middle).
    fn ideal(self) -> f32
        ensures { result ≡ kernel (self.n / 2) self.i }
    {
        2.0 / (angle::single::PI * (self.i as f32 - (self.n / 2) as f32))
    }

    fn window(self) -> f32
        ensures { result ≡ blackman_harris (self.n - 1) self.i }
    {
        0.35875 - self.wave(0.48829, angle::single::TWO_PI) + self.wave(0.14128, FOUR_PI)
            - self.wave(0.01168, SIX_PI)
    }

    // a x cos(turns x i / (n - 1)), where `turns` is a multiple of 2 x PI.
    fn wave(self, a: f32, turns: f32) -> f32
        ensures { result ≡ ripple a turns (self.n - 1) self.i }
    {
        a * angle::single::cosine_f32(turns * self.i as f32 / (self.n - 1) as f32)
    }
}
