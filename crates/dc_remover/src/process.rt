// The three calls that take the mean off, in place: mono, interleaved, and I and Q in two slices. Each works block by
// block, from the state that the block before gave.
ghost use Rattle.std.specs.Prelude.{◌≡◌};
ghost use Rattle.dc_remover.specs.Process.{given, process_mono, process, process_split};

use crate::{DcRemover, DcRemoverDone};

impl DcRemover {
    // Stays: C has the three calls, and each hands its own kind of block on.
    // Mono samples, by the mean of I; that of Q stays. A sample is struck where its output or the new mean
    // would not be finite. SETTING, STATE (also for Q's mean) and LIMIT refuse; nothing is written then.
    pub fn process_mono(mut self, data: &mut [f32]) -> DcRemoverDone
        ensures { given result «data».new ≡ process_mono self «data».old }
    {
        if let Err(refusal) = self.demands(stage::within(data.len()), true) {
            return self.answer(u32::from(refusal), 0);
        }
        let mut struck = 0;
        for b in 0..data.len().div_ceil(16) {
            let end = data.len().min(16 * b + 16);
            let ran = self.block_mono(&mut data[16 * b..end]);
            self = ran.state;
            struck += ran.struck;
        }
        self.answer(stage::NONE, struck)
    }

    // Interleaved pairs, I first; one bad half strikes its pair. SETTING, STATE, LIMIT, and LENGTH where the
    // slice is odd, refuse; nothing is written then.
    pub fn process(mut self, data: &mut [f32]) -> DcRemoverDone
        ensures { given result «data».new ≡ process self «data».old }
    {
        if let Err(refusal) = self.demands(stage::within(data.len()), stage::even(data.len())) {
            return self.answer(u32::from(refusal), 0);
        }
        let mut struck = 0;
        for b in 0..data.len().div_ceil(32) {
            let end = data.len().min(32 * b + 32);
            let ran = self.block_pairs(&mut data[32 * b..end]);
            self = ran.state;
            struck += ran.struck;
        }
        self.answer(stage::NONE, struck)
    }

    // I and Q in a slice each, to the end of the shorter; the rest of the longer stays. SETTING, STATE, and
    // LIMIT where either slice is too long, refuse, never LENGTH; nothing is written then.
    pub fn process_split(mut self, i: &mut [f32], q: &mut [f32]) -> DcRemoverDone
        ensures { given result (i.new, q.new) ≡ process_split self (i.old, q.old) }
    {
        if let Err(refusal) = self.demands(stage::within(i.len()) & stage::within(q.len()), true) {
            return self.answer(u32::from(refusal), 0);
        }
        let n = i.len().min(q.len());
        let mut struck = 0;
        for b in 0..n.div_ceil(16) {
            let end = n.min(16 * b + 16);
            let ran = self.block_split(&mut i[16 * b..end], &mut q[16 * b..end]);
            self = ran.state;
            struck += ran.struck;
        }
        self.answer(stage::NONE, struck)
    }
}
