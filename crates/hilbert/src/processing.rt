// A block of samples, filtered.
ghost use Rattle.std.specs.Prelude.{◌≡◌};
ghost use Rattle.hilbert.specs.Process.{processed};

use crate::{HilbertDone, HilbertFilter};

impl HilbertFilter {
    // Writes an output for each sample of a block to the start of `output`, and brings the history up to the
    // block's end. Refused are, in this order: SETTING for the number of taps, LIMIT for the input, LENGTH for the
    // history, ROOM for an output shorter than the input. A refusal changes nothing.
    pub fn process_into(
        taps: &[f32],
        history: &mut [f32],
        input: &[f32],
        output: &mut [f32],
    ) -> HilbertDone
        ensures { (result, history.new, output.new) ≡ processed taps.now history.old input.now output.old }
    {
        let demands = stage::demands(
            crate::rules::taps_allowed(taps.len()),
            true,
            stage::within(input.len()),
            fir::history_fits(taps, history),
            input.len() <= output.len(),
        );
        if let Err(refusal) = demands {
            return crate::rules::answer_of(u32::from(refusal));
        }
        let count = fir::filter_odd_into(taps, history, input, output);
        fir::keep(history, input);
        HilbertDone {
            refusal: stage::NONE,
            count,
        }
    }
}
