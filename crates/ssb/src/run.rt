// A block of any length, up to 256 pairs at a time: so the work needs no scratch but small arrays.
ghost use Rattle.std.specs.Prelude.{◌≡◌, ◌+◌, ◌≤◌, length};
ghost use Rattle.stage.specs.Layout.{pairs, over};
ghost use Rattle.ssb.specs.Sideband.{ssb_outs, ssb_end};
ghost use Rattle.ssb.specs.Ready.{Block};
ghost use Rattle.ssb.specs.Lent.{Same, held};

use crate::lent::Lent;

impl Lent<'_, '_> {
    // The outputs of all pairs, at the start of `output`.
    pub(crate) fn run(&mut self, input: &[f32], output: &mut [f32])
        requires { Block (length input.now) (length output.old) }
        ensures same { Same self.old self.new }
        ensures outputs { output.new ≡ over (ssb_outs self.old.is_usb self.old.taps.now (held self.old) (pairs input.now)) output.old }
        ensures histories_after { held self.new ≡ ssb_end (held self.old) (pairs input.now) }
    {
        let n = input.len() / 2;
        for k in 0..n.div_ceil(256) {
            let j = 256 * k;
            let m = (n - j).min(256);
            self.chunk(&input[2 * j..2 * (j + m)], &mut output[j..j + m]);
        }
    }

    // Up to 256 pairs, as many as the output has places: I and Q taken apart, Q through the Hilbert filter, I delayed
    // and mixed in.
    fn chunk(&mut self, input: &[f32], output: &mut [f32])
        requires lengths { (length input.now ≡ length output.old + length output.old) × (length output.old ≤ 256) }
        ensures same { Same self.old self.new }
        ensures outputs { output.new ≡ ssb_outs self.old.is_usb self.old.taps.now (held self.old) (pairs input.now) }
        ensures histories_after { held self.new ≡ ssb_end (held self.old) (pairs input.now) }
    {
        let n = output.len();
        let mut i = [0.0f32; 256];
        let mut q = [0.0f32; 256];
        self.demodulate(input, &mut i[..n], &mut q[..n], output);
    }

    // The same, with room for as many I and Q.
    fn demodulate(&mut self, input: &[f32], i: &mut [f32], q: &mut [f32], output: &mut [f32])
        requires lengths { (length input.now ≡ length output.old + length output.old) × (length output.old ≤ 256) }
        requires halves { (length i.old ≡ length output.old) × (length q.old ≡ length output.old) }
        ensures same { Same self.old self.new }
        ensures outputs { output.new ≡ ssb_outs self.old.is_usb self.old.taps.now (held self.old) (pairs input.now) }
        ensures histories_after { held self.new ≡ ssb_end (held self.old) (pairs input.now) }
    {
        halves::split(input, i, q);
        hilbert::HilbertFilter::process_into(self.taps, self.q_history, q, output);
        let i_history = &mut *self.i_history;
        crate::mixing::mix_delayed(self.is_usb, i_history, i, output);
        fir::keep(i_history, i);
    }
}
