// The outputs of a block by planes: up to 64 at a time, of which 32 are summed at once.
ghost use Rattle.std.specs.Prelude.{◌≡◌, ◌+◌, ◌*◌, ◌<◌, ◌≤◌, length};
ghost use Rattle.stage.specs.Counted.{counted, counted_from};
ghost use Rattle.fir.specs.Written.{dots_of};
ghost use Rattle.fir.specs.Planes.{Spans, Summed};

use crate::blocks::by_32;
use crate::planes::Planes;
use crate::work::Work;

// Work whose taps are few enough for the planes.
#[derive(Clone, Copy)]
pub(crate) struct Planar<'a> {
    pub(crate) work: Work<'a>,
    ghost near: { length work.taps.now ≤ 16 * work.factor + 1 },
}

impl Planar<'_> {
    ghost use Rattle.fir.specs.Written.{output_of};

    // All of them, with Z places for the planes and E for samples that are gathered.
    pub(crate) fn run<const Z: usize, const E: usize>(&self, output: &mut [f32])
        requires room { (128 * self.now.work.factor ≤ Z) × (80 * self.now.work.factor ≤ E) × (Z ≤ 8192) × (E ≤ 8192) }
        requires count { length output.old ≡ self.now.work.count }
        ensures { output.new ≡ counted (output_of self.now.work) self.now.work.count }
    {
        let mut z = [0.0f32; Z];
        let mut e = [0.0f32; E];
        for b in 0..output.len().div_ceil(64) {
            let j = 64 * b;
            let end = output.len().min(j + 64);
            self.chunk(&mut z, &mut e, j, &mut output[j..end]);
        }
    }

    // As many outputs as `output` has places, from output j on. Where the first window begins in the history, the
    // samples are gathered first.
    fn chunk(&self, z: &mut [f32], e: &mut [f32], j: usize, output: &mut [f32])
        requires few { (0 < length output.old) × (length output.old ≤ 64) }
        requires within { j + length output.old ≤ self.now.work.count }
        requires room { (128 * self.now.work.factor ≤ length z.old) × (80 * self.now.work.factor ≤ length e.old) }
        ensures { output.new ≡ counted_from (output_of self.now.work) j (length output.old) }
    {
        let at = self.work.place(j);
        let n = self.span(output.len());
        let h = self.work.history.len();
        if h <= at {
            self.block(z, &self.work.input[at - h..at - h + n], output);
        } else {
            self.work.across(at, &mut e[..n]);
            self.block(z, &e[..n], output);
        }
    }

    // How many samples the windows of m outputs span.
    fn span(&self, m: usize) -> usize
        requires { (0 < m) × (m ≤ 64) }
        ensures spans { Spans result self.now.work.factor m (length self.now.work.taps.now) }
        ensures most { result ≤ 80 * self.now.work.factor }
        ensures least { length self.now.work.taps.now ≤ result }
    {
        (m - 1) * self.work.factor + self.work.taps.len()
    }

    // The outputs of the samples x that they span: out of the planes z, which are filled anew.
    fn block(&self, z: &mut [f32], x: &[f32], output: &mut [f32])
        requires few { (0 < length output.old) × (length output.old ≤ 64) }
        requires spans { Spans (length x.now) self.now.work.factor (length output.old) (length self.now.work.taps.now) }
        requires room { 128 * self.now.work.factor ≤ length z.old }
        ensures { output.new ≡ counted (dots_of self.now.work.taps.now x.now self.now.work.factor) (length output.old) }
    {
        let taps = self.work.taps;
        let planes = Planes::fill(z, x, self.work.factor);
        by_32(
            |g|
                requires { (g ≤ 64) × (length taps.now ≤ 16 * planes.factor + 1) }
                ensures { (length result ≡ 32) × Summed taps.entry.now planes.entry.x.now planes.entry.factor g result }
            { planes.sums(taps, g) },
            output,
        );
    }
}
