// Floats as bytes: the pattern of each, its lowest byte first.
ghost use Rattle.std.specs.Prelude.{◌≡◌, ◌*◌, length};
ghost use Rattle.receiver.specs.Bytes.{little_endian};

use std::num::f32_to_bits_with_nan;

// Four bytes for each float. (No sample of sound is NaN.)
pub(crate) fn store(xs: &[f32], output: &mut [u8])
    requires { length output.old ≡ 4 * length xs.now }
    ensures { output.new ≡ little_endian xs.now }
{
    for k in 0..xs.len() {
        let bytes = f32_to_bits_with_nan(xs[k]).to_le_bytes();
        output[4 * k..4 * k + 4].copy_from_slice(&bytes);
    }
}
