// The call that brings interleaved pairs to the target level, in place.
ghost use Rattle.std.specs.Prelude.{◌≡◌};
ghost use Rattle.agc.specs.Process.{given, process};

use crate::{Agc, AgcDone};

impl Agc {
    // Interleaved pairs, I first, each times the gain after it. A pair is struck where that gain or an output
    // would not be finite. SETTING, STATE, LIMIT and LENGTH refuse, and then nothing is written.
    pub fn process(mut self, data: &mut [f32]) -> AgcDone
        ensures { given result «data».new ≡ process self «data».old }
    {
        if let Err(refusal) = self.demands(stage::within(data.len()), stage::even(data.len())) {
            return self.answer(u32::from(refusal), 0);
        }
        let ran = stage::run_pairs(self, data);
        self = ran.state;
        self.answer(stage::NONE, ran.struck)
    }
}
