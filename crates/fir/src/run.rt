// The outputs of a block in the form that is quickest for it.
ghost use Rattle.std.specs.Prelude.{◌≡◌, length};
ghost use Rattle.stage.specs.Counted.{counted};
ghost use Rattle.fir.specs.Into.{filtered_into};
ghost use Rattle.fir.specs.Written.{output_of};

use crate::history::history_fits;
use crate::planar::Planar;
use crate::work::Work;

// Writes the outputs of a block to the start of the output slice and answers how many they are: the first is
// taken after `phase` samples, the others each factor on. Where the history is not taps less one, the factor not
// 1 to 64, the input over the limit or the output too short, it answers 0 and writes nothing.
pub fn filter_into(
    taps: &[f32],
    history: &[f32],
    input: &[f32],
    output: &mut [f32],
    factor: usize,
    phase: usize,
) -> usize
    ensures { (result, output.new) ≡ filtered_into factor phase taps.now history.now input.now output.old }
{
    let count = crate::counts::count(factor, phase, input.len());
    let fit = history_fits(taps, history)
        & (1 <= factor)
        & (factor <= 64)
        & stage::within(input.len())
        & (count <= output.len());
    if !fit {
        // Stays: `filtered_into` of specs/, which docs/PROMISES.md names, answers 0 there; the decimator, which calls
        // this, has tested the lengths.
        return 0;
    }
    let work = Work {
        taps,
        history,
        input,
        factor,
        phase,
        count,
    };
    work.run(&mut output[..count]);
    count
}

impl Work<'_> {
    // By planes, save where they have no room for the taps or there is too little work to fill them; with as much room
    // for the planes as the factor asks for, since zeroing it costs time in a short block.
    fn run(&self, output: &mut [f32])
        requires { length output.old ≡ self.now.count }
        ensures { output.new ≡ counted (output_of self.now) self.now.count }
    {
        if self.taps.len() <= 16 * self.factor + 1 && 8 <= self.taps.len() && 16 <= self.count {
            let planar = Planar { work: *self };
            if self.factor <= 16 {
                planar.run::<2048, 1280>(output);
            } else {
                planar.run::<8192, 5120>(output);
            }
        } else {
            self.run_plain(output);
        }
    }
}
