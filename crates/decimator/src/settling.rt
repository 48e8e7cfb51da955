// A decimator set back to its start, or to another cutoff.
ghost use Rattle.std.specs.Prelude.{◌≡◌};
ghost use Rattle.decimator.specs.Settling.{cleared, retuned};

use crate::{Decimated, Decimator};

impl Decimator {
    // Clears history and phase, as before a stream. Refused are SETTING for factor, phase or number of taps, also
    // a phase that would be cleared, and LENGTH for the history. A refusal changes nothing.
    pub fn reset(self, taps: &[f32], history: &mut [f32]) -> Decimated
        ensures { (result, history.new) ≡ cleared self taps.now history.old }
    {
        let demands = stage::demands(
            self.state_allowed(taps.len()),
            true,
            true,
            fir::history_fits(taps, history),
            true,
        );
        if let Err(refusal) = demands {
            return self.answer(u32::from(refusal), 0);
        }
        fir::clear(history);
        let cleared = Decimator { phase: 0, ..self };
        cleared.answer(stage::NONE, 0)
    }

    // Writes the taps for another cutoff and keeps history and phase. Refused are SETTING for factor, phase,
    // number of taps or cutoff, and LENGTH for the history, of which only the length is read. A refusal changes
    // nothing.
    pub fn update_cutoff(self, cutoff: f32, taps: &mut [f32], history: &[f32]) -> Decimated
        ensures { (result, taps.new) ≡ retuned self cutoff taps.old history.now }
    {
        let demands = stage::demands(
            self.state_allowed(taps.len()) & lowpass::cutoff_allowed(cutoff),
            true,
            true,
            fir::history_fits(taps, history),
            true,
        );
        if let Err(refusal) = demands {
            return self.answer(u32::from(refusal), 0);
        }
        lowpass::design_lowpass(taps, cutoff);
        self.answer(stage::NONE, 0)
    }
}
