// The plain form: four outputs at a time, and then one by one. For taps that are too many for the planes, and
// for little work.
ghost use Rattle.std.specs.Prelude.{◌≡◌, length};
ghost use Rattle.stage.specs.Counted.{counted};
ghost use Rattle.fir.specs.Written.{output_of};

use crate::work::Work;

impl Work<'_> {
    // The outputs of a block.
    pub(crate) fn run_plain(&self, output: &mut [f32])
        requires { length output.old ≡ self.now.count }
        ensures { output.new ≡ counted (output_of self.now) self.now.count }
    {
        let fours = self.count / 4;
        for k in 0..fours {
            let j = 4 * k;
            output[j..j + 4].copy_from_slice(&self.four(j));
        }
        for j in 4 * fours..self.count {
            output[j] = self.output(j);
        }
    }
}
