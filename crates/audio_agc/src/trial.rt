// A block tried: each sample worked as if it were kept, without a test of that, up to the first in dead air. An
// envelope or a gain that is not finite stays so, so the last ones tell of all before them, and what comes of
// finite ones is finite once it is clamped. The envelope seldom rises: the samples that let it fall have a loop of
// their own, so that the next envelope does not wait for the test which way this one went.
ghost use Rattle.std.specs.Prelude.{ℕ, ◌≡◌, true, map, ◌+◌, ◌<◌, ◌≤◌, length, get_or, Some};
ghost use Rattle.std.specs.Float.{nan};
ghost use Rattle.std.specs.Float.Ieee.{lt};
ghost use Rattle.audio_agc.specs.Step.{clamp_one};
ghost use Rattle.audio_agc.specs.Moved.{Turned, Kept};

use crate::{AudioAgc, level};
use number::kinds::Real;

impl AudioAgc {
    // The outputs into `z`, not yet clamped, and the state after the block; nothing where a sample of it would be
    // struck, or lies in dead air.
    pub(crate) fn try_live(self, data: &[f32], z: &mut [f32; 32]) -> Option<AudioAgc>
        requires { (length «data».now ≡ 32) × (lt self.min_magnitude self.envelope ≡ true) }
        ensures { (after : AudioAgc) → result ≡ Some after → Kept self «data».now after (map clamp_one z.new) }
    {
        let mut at = self;
        // Stays: one `for` is slower (docs/SPEED.md), as its envelopes each wait for a select.
        let mut k = 0;
        while k < data.len() {
            while falls(data, k, at.envelope) {
                at = at.signal(data[k])?;
                z[k] = data[k] * at.gain;
                k += 1;
            }
            if k < data.len() {
                at = at.signal(data[k])?;
                z[k] = data[k] * at.gain;
                k += 1;
            }
        }
        if stage::both_finite(at.gain, at.envelope) {
            Some(at)
        } else {
            None
        }
    }

    // The state after one sample more; nothing where it lies in dead air.
    fn signal(self, x: f32) -> Option<AudioAgc>
        ensures { (after : AudioAgc) → result ≡ Some after → Turned self x after }
    {
        let envelope = level::envelope_after(self.envelope, x.magnitude());
        if self.min_magnitude < envelope {
            Some(self.follow(envelope))
        } else {
            None
        }
    }
}

// Whether there is a sample at k, and it does not lift the envelope. A NaN counts as one that does: then the magnitude
// of one that does not is its bits without the sign, with no further test.
fn falls(data: &[f32], k: usize, envelope: f32) -> bool
    ensures { result ≡ true → k < length «data».now }
{
    k < data.len() && data[k] == data[k] && !(data[k].magnitude() > envelope)
}

// The outputs clamped to -1..1, four at a time, which the compiler works side by side.
pub(crate) fn clamp_into(z: &[f32; 32], data: &mut [f32])
    requires { length «data».old ≡ 32 }
    ensures { «data».new ≡ map clamp_one z.now }
{
    for g in 0..8 {
        data[4 * g..4 * g + 4].copy_from_slice(&four_clamped(z, 4 * g));
    }
}

fn four_clamped(z: &[f32; 32], at: usize) -> [f32; 4]
    requires { at + 4 ≤ 32 }
    ensures { (l : ℕ) → l < 4 → get_or result l nan ≡ clamp_one (get_or z.now (at + l) nan) }
{
    std::array::from_fn(|l| level::clamp(-1.0, 1.0, z[at + l]))
}
