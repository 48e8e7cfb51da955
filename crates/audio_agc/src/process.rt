// The call that brings audio to the target level, in place. It works block by block, from the state that the block
// before gave: a block is tried first, and left to `stage::run_mono` where something in it is struck or lies in dead
// air. So is what is left at the end, shorter than a block.
ghost use Rattle.std.specs.Prelude.{◌≡◌, length, Some, None};
ghost use Rattle.audio_agc.specs.Moved.{Kept};
ghost use Rattle.audio_agc.specs.Process.{given, process};

use crate::trial::clamp_into;
use crate::{AudioAgc, AudioAgcDone};

impl AudioAgc {
    // Mono samples, each times the gain after it, clamped to -1..1 unless the signal is dead air. A sample is
    // struck where its output, the gain or the envelope would not be finite; the hang counter stays too.
    // SETTING, STATE and LIMIT refuse, and then nothing is written.
    pub fn process(mut self, data: &mut [f32]) -> AudioAgcDone
        ensures { given result «data».new ≡ process self «data».old }
    {
        if let Err(refusal) = self.demands(stage::within(data.len())) {
            return self.answer(u32::from(refusal), 0);
        }
        let blocks = data.len() / 32;
        let mut struck = 0;
        for b in 0..blocks {
            let block = &mut data[32 * b..32 * b + 32];
            match self.try_block(block) {
                Some(after) => self = after,
                None => {
                    let ran = stage::run_mono(self, block);
                    self = ran.state;
                    struck += ran.struck;
                }
            }
        }
        let ran = stage::run_mono(self, &mut data[32 * blocks..]);
        self = ran.state;
        self.answer(stage::NONE, struck + ran.struck)
    }

    // The outputs of 32 samples, and the state after them; nothing, and nothing written, where a sample would be struck
    // or lies in dead air. Dead air goes on as a rule, so a block that begins in it is not tried.
    fn try_block(self, data: &mut [f32]) -> Option<AudioAgc>
        requires { length «data».old ≡ 32 }
        ensures kept { (after : AudioAgc) → result ≡ Some after → Kept self «data».old after «data».new }
        ensures left { result ≡ None → «data».new ≡ «data».old }
    {
        if !(self.min_magnitude < self.envelope) {
            return None;
        }
        let mut z = [0.0; 32];
        let after = self.try_live(data, &mut z)?;
        clamp_into(&z, data);
        Some(after)
    }
}
