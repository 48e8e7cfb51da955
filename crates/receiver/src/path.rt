// The path of document 01's demo, a stage to a line.
ghost use Rattle.std.specs.Prelude.{◌≡◌, ◌*◌, ◌≤◌, length};
ghost use Rattle.receiver.specs.Sound.{memory, sound, after};
ghost use Rattle.receiver.specs.Receive.{heard_of};
ghost use Rattle.receiver.specs.Ready.{Ready};

use crate::{BLOCK, HEARD, PAIRS, Receiver, TENTHS};
use decimator::Decimator;

impl Receiver {
    // The sound of a block, for receivers, lengths and blocks that are not refused. What goes from stage to stage has
    // room just as long as it is.
    // Stays: taps and histories are three slices, as the public calls have them; a record would serve this call alone.
    pub(crate) fn play(
        self,
        taps: &[f32],
        i_history: &mut [f32],
        q_history: &mut [f32],
        input: &[u8],
        output: &mut [u8],
    ) -> Receiver
        requires ready { Ready self (length taps.now) (length i_history.old) (length q_history.old) (length input.now) }
        requires room { (length output.old ≡ 4 * heard_of self.phase (length input.now)) × (length output.old ≤ 1640) }
        ensures outputs { output.new ≡ sound taps.now (memory self i_history.old q_history.old) input.now }
        ensures memory_after { memory result i_history.new q_history.new
            ≡ after taps.now (memory self i_history.old q_history.old) input.now }
    {
        let pairs = input.len() / 2;
        let m = output.len() / 4;
        let mut samples = [0.0; BLOCK];
        let mut i = [0.0; PAIRS];
        let mut q = [0.0; PAIRS];
        let mut i_tenth = [0.0; HEARD];
        let mut q_tenth = [0.0; HEARD];
        let mut tenths = [0.0; TENTHS];
        let mut heard = [0.0; HEARD];
        let samples = &mut samples[..input.len()];
        let i = &mut i[..pairs];
        let q = &mut q[..pairs];
        let i_tenth = &mut i_tenth[..m];
        let q_tenth = &mut q_tenth[..m];
        let tenths = &mut tenths[..2 * m];
        let heard = &mut heard[..m];
        converter::convert(input, samples);
        halves::split(samples, i, q);
        let at = Decimator {
            factor: 10,
            phase: self.phase,
        };
        let thinned = at.process_into(taps, i_history, i, i_tenth);
        at.process_into(taps, q_history, q, q_tenth);
        halves::join(i_tenth, q_tenth, tenths);
        let done = self.fm.process_into(tenths, heard);
        crate::bytes::store(heard, output);
        Receiver {
            phase: thinned.state.phase,
            fm: done.state,
        }
    }
}
