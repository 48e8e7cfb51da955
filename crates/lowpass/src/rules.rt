// The rules on a lowpass filter's settings.
ghost use Rattle.std.specs.Prelude.{◌≡◌};
ghost use Rattle.lowpass.specs.Rules.{taps_allowed, cutoff_allowed};

// Whether a filter may have n taps: odd, from 3 to 769.
pub fn taps_allowed(n: usize) -> bool
    ensures { result ≡ taps_allowed n }
{
    stage::odd_up_to(n, 769)
}

// Whether a cutoff is at least 1/1024 and below 0.5; NaN is not.
pub fn cutoff_allowed(cutoff: f32) -> bool
    ensures { result ≡ cutoff_allowed cutoff }
{
    (0.0009765625 <= cutoff) & (cutoff < 0.5)
}
