// What the step of the audio gain control is made of: the envelope, the clamp, and how the gain moves.
ghost use Rattle.std.specs.Prelude.{◌≡◌};
ghost use Rattle.audio_agc.specs.Level.{at_most, clamp_of, envelope_after, dead_gain, slow_decay};

use number::kinds::Real;

// The envelope after a sample of this magnitude: up at once, and down slowly.
#[tactic(auto, unfolding(crate::specs::Level::envelope_after))]
pub fn envelope_after(envelope: f32, mag: f32) -> f32
    ensures { result ≡ envelope_after envelope mag }
{
    if mag > envelope {
        mag
    } else {
        0.999 * envelope + 0.001 * mag
    }
}

// The gain in dead air: slowly back to 1.
#[tactic(auto, unfolding(crate::specs::Level::dead_gain))]
pub fn dead_gain(gain: f32) -> f32
    ensures { result ≡ dead_gain gain }
{
    if (gain - 1.0).magnitude() > 1e-6 {
        0.9999 * gain + 0.0001 * 1.0
    } else {
        gain
    }
}

// The decay, slowed to a tenth near the noise floor.
#[tactic(auto, unfolding(crate::specs::Level::slow_decay))]
pub fn slow_decay(decay: f32, floor: f32, envelope: f32) -> f32
    ensures { result ≡ slow_decay decay floor envelope }
{
    let snr = clamp(0.0, 1.0, (envelope - floor) / floor);
    decay * (0.1 + 0.9 * snr)
}

// x within low and high, as the Rust's `clamp`: NaN passes.
#[tactic(auto, unfolding(crate::specs::Level::clamp_of))]
pub fn clamp(low: f32, high: f32, x: f32) -> f32
    ensures { result ≡ clamp_of low high x }
{
    if x < low {
        at_most(high, low)
    } else {
        at_most(high, x)
    }
}

fn at_most(high: f32, x: f32) -> f32
    ensures { result ≡ at_most high x }
{
    if x > high { high } else { x }
}
