// A block tried: each sample worked as if it were kept, without a test on the way. A mean that is not finite
// leaves no output finite, so finite outputs alone tell that none is struck.
ghost use Rattle.std.specs.Prelude.{◌≡◌, true, length};
ghost use Rattle.stage.specs.Floats.{all_finite};
ghost use Rattle.stage.specs.Length.{is_even};
ghost use Rattle.stage.specs.Lent.{mono, interleaved};
ghost use Rattle.stage.specs.Call.{gave, ran};
ghost use Rattle.dc_remover.specs.Process.{mono_stage, pair_stage};

use crate::DcRemover;

impl DcRemover {
    // The outputs of mono samples into `z`, and the state after them.
    pub(crate) fn try_mono(mut self, data: &[f32], z: &mut [f32]) -> DcRemover
        requires { length z.old ≡ length «data».now }
        ensures { all_finite z.new ≡ true → gave result 0 z.new ≡ ran mono_stage mono self «data».now }
    {
        for (k, x) in data.iter().enumerate() {
            let (out, after) = self.mono_kept(*x);
            z[k] = out;
            self = after;
        }
        self
    }

    // The same of whole pairs, I and Q side by side.
    // Stays: one loop for both would need a trait that says how samples lie in a slice, longer than this second loop.
    pub(crate) fn try_pairs(mut self, data: &[f32], z: &mut [f32]) -> DcRemover
        requires { (length z.old ≡ length «data».now) × (is_even (length «data».now) ≡ true) }
        ensures { all_finite z.new ≡ true → gave result 0 z.new ≡ ran pair_stage interleaved self «data».now }
    {
        for k in 0..data.len() / 2 {
            let (out, after) = self.pair_kept((data[2 * k], data[2 * k + 1]));
            z[2 * k] = out.0;
            z[2 * k + 1] = out.1;
            self = after;
        }
        self
    }
}
