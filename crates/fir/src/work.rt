// A block whose lengths were tested: what its outputs are worked from.
ghost use Rattle.std.specs.Prelude.{◌≡◌, ◌+◌, ◌*◌, ◌<◌, ◌≤◌, length};
ghost use Rattle.stage.specs.Length.{LONGEST};
ghost use Rattle.fir.specs.Filter.{count_of};

// Taps, history and the block's samples, and where its `count` windows begin: after `phase` samples of history and
// input in a row, and each factor on.
#[derive(Clone, Copy)]
pub(crate) struct Work<'a> {
    pub(crate) taps: &'a [f32],
    pub(crate) history: &'a [f32],
    pub(crate) input: &'a [f32],
    pub(crate) factor: usize,
    pub(crate) phase: usize,
    pub(crate) count: usize,
    ghost fit: { length taps.now ≡ length history.now + 1 },
    ghost some: { 0 < factor },
    ghost most: { factor ≤ 64 },
    ghost short: { length input.now ≤ LONGEST },
    ghost is: { count ≡ count_of factor phase (length input.now) },
}

impl Work<'_> {
    // Where the window of output j begins.
    pub(crate) fn place(&self, j: usize) -> usize
        requires { j < self.now.count }
        ensures { (result ≡ self.now.phase + j * self.now.factor) × (result < length self.now.input.now) }
    {
        self.phase + j * self.factor
    }
}
