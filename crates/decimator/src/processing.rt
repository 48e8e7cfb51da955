// A block of samples, filtered and thinned out.
ghost use Rattle.std.specs.Prelude.{◌≡◌};
ghost use Rattle.decimator.specs.Process.{processed};

use crate::{Decimated, Decimator};

impl Decimator {
    // Writes the outputs of a block to the start of `output`, as many as the answer counts, and brings history
    // and phase up to the block's end. Refused are, in this order: SETTING for factor, phase or number of taps,
    // LIMIT for the input, LENGTH for the history, ROOM for an output too short. A refusal changes nothing.
    pub fn process_into(
        self,
        taps: &[f32],
        history: &mut [f32],
        input: &[f32],
        output: &mut [f32],
    ) -> Decimated
        ensures { (result, history.new, output.new) ≡ processed self taps.now history.old input.now output.old }
    {
        let factor = self.factor;
        let phase = self.phase;
        let n = input.len();
        let count = fir::count(factor, phase, n);
        let demands = stage::demands(
            self.state_allowed(taps.len()),
            true,
            stage::within(n),
            fir::history_fits(taps, history),
            count <= output.len(),
        );
        if let Err(refusal) = demands {
            return self.answer(u32::from(refusal), 0);
        }
        fir::filter_into(taps, history, input, output, factor, phase);
        fir::keep(history, input);
        let next = fir::next_phase(factor, phase, n);
        let after = Decimator {
            factor,
            phase: next,
        };
        after.answer(stage::NONE, count)
    }
}
