// A block of interleaved pairs, demodulated.
ghost use Rattle.std.specs.Prelude.{◌≡◌};
ghost use Rattle.ssb.specs.Process.{processed};

use crate::lent::Lent;
use crate::{SsbDemodulator, SsbDone};

impl SsbDemodulator {
    // Writes an output for each pair of a block to the start of `output`, and brings both histories up to the block's
    // end. Refused are, in this order: SETTING for the number of taps, LIMIT for the input's elements, LENGTH for an
    // odd input, taps that are not 65 or a history of another length, ROOM for fewer places than pairs. A refusal
    // changes nothing.
    pub fn process_into(
        self,
        taps: &[f32],
        q_history: &mut [f32],
        i_history: &mut [f32],
        input: &[f32],
        output: &mut [f32],
    ) -> SsbDone
        ensures { (result, q_history.new, i_history.new, output.new) ≡ processed self taps.now q_history.old i_history.old input.now output.old }
    {
        let n = input.len();
        let demands = stage::demands(
            hilbert::taps_allowed(taps.len()),
            true,
            stage::within(n),
            stage::even(n) & crate::rules::lengths_fit(taps, q_history, i_history),
            n / 2 <= output.len(),
        );
        if let Err(refusal) = demands {
            return self.answer(u32::from(refusal), 0);
        }
        let mut lent = Lent {
            is_usb: self.is_usb,
            taps,
            q_history,
            i_history,
        };
        lent.run(input, output);
        self.answer(stage::NONE, n / 2)
    }
}
