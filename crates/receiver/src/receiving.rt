// A block of bytes, received.
ghost use Rattle.std.specs.Prelude.{◌≡◌, ◌≤◌, length};
ghost use Rattle.receiver.specs.Receive.{received};

use crate::{BLOCK, Received, Receiver, rules};

impl Receiver {
    // Writes the sound of a block to the start of `output`, as many bytes as the answer counts, and brings both
    // histories up to the block's end. Refused are, in this order: SETTING for the phase or the demodulator's alpha,
    // STATE for its angle or de-emphasis, LIMIT for more than 8,192 bytes, LENGTH for an odd number of bytes, taps that
    // are not 121 or a history that is not 120, ROOM for an output too short. A refusal changes nothing.
    pub fn receive(
        self,
        taps: &[f32],
        i_history: &mut [f32],
        q_history: &mut [f32],
        input: &[u8],
        output: &mut [u8],
    ) -> Received
        ensures answer { (result, i_history.new, q_history.new, output.new)
            ≡ received self taps.now i_history.old q_history.old input.now output.old }
        ensures count { result.count ≤ length output.new }
    {
        let n = input.len();
        let m = fir::count(10, self.phase, n / 2);
        let demands = stage::demands(
            self.setting(),
            self.state(),
            n <= BLOCK,
            stage::even(n) & rules::lengths_fit(taps, i_history, q_history),
            m <= output.len() / 4,
        );
        if let Err(refusal) = demands {
            return self.silent(u32::from(refusal));
        }
        let count = 4 * m;
        let state = self.play(taps, i_history, q_history, input, &mut output[..count]);
        Received {
            refusal: stage::NONE,
            state,
            count,
        }
    }
}
