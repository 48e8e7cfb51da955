// Windows read across history and input, which lie in two slices: one output, and four neighbouring ones.
ghost use Rattle.std.specs.Prelude.{◌≡◌, ◌+◌, ◌^◌, ◌<◌, ◌≤◌};
ghost use Rattle.stage.specs.Counted.{counted_from};
ghost use Rattle.fir.specs.Written.{output_of};

use crate::dot::{dot_four, dot_from};
use crate::work::Work;

impl Work<'_> {
    // Output j.
    pub(crate) fn output(&self, j: usize) -> f32
        requires { j < self.now.count }
        ensures { result ≡ output_of self.now j }
    {
        let at = self.place(j);
        let h = self.history.len();
        if h <= at {
            return dot_from(0.0, &self.input[at - h..], self.taps);
        }
        let k = h - at;
        let first = dot_from(0.0, &self.history[at..], &self.taps[..k]);
        dot_from(first, self.input, &self.taps[k..])
    }

    // Outputs j to j + 3. Only where the first window lies in the input are they worked side by side.
    pub(crate) fn four(&self, j: usize) -> [f32; 4]
        requires { j + 4 ≤ self.now.count }
        ensures { result ≡ counted_from (output_of self.now) j 4 }
    {
        let at = self.place(j);
        let h = self.history.len();
        if h <= at {
            return dot_four(&self.input[at - h..], self.factor, self.taps);
        }
        std::array::from_fn(
            |l|
                requires word { j + l < 2 ^ 64 }
                requires within { j + l < self.now.count }
                ensures { result ≡ output_of self.entry.now (j + l) }
            { self.output(j + l) },
        )
    }
}
