// The filter over the odd taps alone, with an output for each sample: neighbouring outputs' samples are
// neighbours as they lie, so that the lanes need no planes.
ghost use Rattle.std.specs.Prelude.{◌≡◌, ◌+◌, ◌≤◌, length};
ghost use Rattle.stage.specs.Counted.{counted, counted_from};
ghost use Rattle.fir.specs.Into.{filtered_odd_into};
ghost use Rattle.fir.specs.Written.{odd_at, odd_of};
ghost use Rattle.fir.specs.Planes.{OddSummed};

use crate::blocks::by_32;
use crate::history::history_fits;
use crate::work::Work;

// Writes an output for each sample of a block to the start of the output slice and answers how many they are.
// Where the history is not taps less one, the taps are more than 129, the input is over the limit or the output
// too short, it answers 0 and writes nothing.
pub fn filter_odd_into(taps: &[f32], history: &[f32], input: &[f32], output: &mut [f32]) -> usize
    ensures { (result, output.new) ≡ filtered_odd_into taps.now history.now input.now output.old }
{
    let count = input.len();
    let fit = history_fits(taps, history)
        & (taps.len() <= 129)
        & stage::within(count)
        & (count <= output.len());
    if !fit {
        // Stays: `filtered_odd_into` of specs/, which docs/PROMISES.md names, answers 0 there; the Hilbert filter,
        // which calls this, has tested the lengths.
        return 0;
    }
    let work = Work {
        taps,
        history,
        input,
        factor: 1,
        phase: 0,
        count,
    };
    work.run_odd(&mut output[..count]);
    count
}

impl Work<'_> {
    // The outputs, up to 256 at a time.
    fn run_odd(&self, output: &mut [f32])
        requires { (length self.now.taps.now ≤ 129) × (length output.old ≡ length self.now.input.now) }
        ensures { output.new ≡ counted (odd_of self.now) (length output.old) }
    {
        let mut e = [0.0f32; 512];
        for b in 0..output.len().div_ceil(256) {
            let j = 256 * b;
            let end = output.len().min(j + 256);
            self.chunk_odd(&mut e, j, &mut output[j..end]);
        }
    }

    // As many outputs as `output` has places, from output j on. e is the room for the samples.
    fn chunk_odd(&self, e: &mut [f32; 512], j: usize, output: &mut [f32])
        requires few { (length self.now.taps.now ≤ 129) × (length output.old ≤ 256) }
        requires within { j + length output.old ≤ length self.now.input.now }
        ensures { output.new ≡ counted_from (odd_of self.now) j (length output.old) }
    {
        let n = output.len() + self.history.len();
        self.gather(j, &mut e[..n]);
        block_odd(e, self.taps, output);
    }
}

// The outputs of the samples x, 32 at a time.
fn block_odd(x: &[f32], taps: &[f32], output: &mut [f32])
    requires { length output.old + 32 + length taps.now ≤ length x.now }
    ensures { output.new ≡ counted (odd_at taps.now x.now) (length output.old) }
{
    by_32(
        |g|
            requires { g + 32 + length taps.now ≤ length x.now }
            ensures { (length result ≡ 32) × OddSummed taps.entry.now x.entry.now g result }
        { odd_sums(x, taps, g) },
        output,
    );
}

// 32 neighbouring outputs, the first of the window that begins at o.
fn odd_sums(x: &[f32], taps: &[f32], o: usize) -> [f32; 32]
    requires { o + 32 + length taps.now ≤ length x.now }
    ensures { (length result ≡ 32) × OddSummed taps.now x.now o result }
{
    let mut acc = [0.0f32; 32];
    for k in 0..taps.len() / 2 {
        let i = 2 * k + 1;
        crate::lanes::turn(&mut acc, x, o + i, 1, taps[i]);
    }
    acc
}
