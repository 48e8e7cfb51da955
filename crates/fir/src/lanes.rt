// Neighbouring outputs side by side, a lane for each: no lane waits for another, so that one instruction
// serves several.
ghost use Rattle.std.specs.Prelude.{◌≡◌, ◌+◌, ◌*◌, ◌<◌, ◌≤◌, length};
ghost use Rattle.fir.specs.Planes.{Turned, Summed};

use crate::planes::Planes;

// One tap of all lanes: each adds its own sample times the tap.
pub(crate) fn turn<const N: usize>(
    acc: &mut [f32; N],
    x: &[f32],
    place: usize,
    step: usize,
    tap: f32,
)
    requires { (length acc.old ≡ N) × (step ≤ 64) × (N ≤ 32) × (place + N * step < length x.now + step) }
    ensures { (length acc.new ≡ N) × Turned N acc.old x.now place step tap acc.new }
{
    for l in 0..N {
        acc[l] += x[place + l * step] * tap;
    }
}

impl Planes<'_> {
    // 32 outputs, from output q of the samples. `p` and `k` are the plane and the row of a tap's sample of the first
    // of them.
    pub(crate) fn sums(&self, taps: &[f32], q: usize) -> [f32; 32]
        requires { (q ≤ 64) × (length taps.now ≤ 16 * self.now.factor + 1) }
        ensures { (length result ≡ 32) × Summed taps.now self.now.x.now self.now.factor q result }
    {
        // Stays: p and k are i % factor and q + i / factor of tap i; a division for each tap says it no plainer.
        let mut acc = [0.0f32; 32];
        let mut p = 0;
        let mut k = q;
        for tap in taps {
            turn(&mut acc, self.z, p * 128 + k, 1, *tap);
            p += 1;
            if p == self.factor {
                p = 0;
                k += 1;
            }
        }
        acc
    }
}
