// A block of each call: tried first, and worked step by step where something in it is struck, or where it is
// the last and shorter. What is lent stays as it is until the trial has shown that none is struck. I and Q in two
// slices are put together first, so that they need no forms of their own.
ghost use Rattle.std.specs.Prelude.{◌≡◌, true, ◌≤◌, length};
ghost use Rattle.stage.specs.Length.{is_even};
ghost use Rattle.stage.specs.Lent.{mono, interleaved, split};
ghost use Rattle.stage.specs.Call.{gave, ran};
ghost use Rattle.dc_remover.specs.Process.{mono_stage, pair_stage};

use crate::DcRemover;
use stage::Ran;

impl DcRemover {
    // Mono samples, 16 at a time.
    // Stays: one block for both would need the trait that one trial for both would (trial.rt).
    pub(crate) fn block_mono(self, data: &mut [f32]) -> Ran<DcRemover>
        ensures { gave result.state result.struck «data».new ≡ ran mono_stage mono self «data».old }
    {
        if data.len() == 16 {
            let mut z = [0.0; 16];
            let state = self.try_mono(data, &mut z);
            if stage::all_finite(&z) {
                stage::copy(&z, data);
                return Ran { state, struck: 0 };
            }
        }
        stage::run_mono(self, data)
    }

    // Whole pairs, 16 at a time.
    pub(crate) fn block_pairs(self, data: &mut [f32]) -> Ran<DcRemover>
        requires { is_even (length «data».old) ≡ true }
        ensures { gave result.state result.struck «data».new ≡ ran pair_stage interleaved self «data».old }
    {
        if data.len() == 32 {
            let mut z = [0.0; 32];
            let state = self.try_pairs(data, &mut z);
            if stage::all_finite(&z) {
                stage::copy(&z, data);
                return Ran { state, struck: 0 };
            }
        }
        stage::run_pairs(self, data)
    }

    // As many I as Q, at most 16 of each: put together, worked as pairs, and taken apart again.
    pub(crate) fn block_split(self, i: &mut [f32], q: &mut [f32]) -> Ran<DcRemover>
        requires { (length q.old ≡ length i.old) × (length i.old ≤ 16) }
        ensures { gave result.state result.struck (i.new, q.new) ≡ ran pair_stage split self (i.old, q.old) }
    {
        let mut z = [0.0; 32];
        let pairs = &mut z[..2 * i.len()];
        halves::join(i, q, pairs);
        let ran = self.block_pairs(pairs);
        halves::split(pairs, i, q);
        ran
    }
}
