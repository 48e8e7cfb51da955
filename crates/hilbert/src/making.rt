// A Hilbert filter made: its taps designed, its history cleared.
ghost use Rattle.std.specs.Prelude.{◌≡◌};
ghost use Rattle.hilbert.specs.Making.{made};

use crate::{HilbertDone, HilbertFilter};

impl HilbertFilter {
    // Writes the taps, as many as the slice has places, and clears the history. Refused are SETTING for a number
    // of taps that is even or not from 3 to 129, and LENGTH for a history that is not taps less one; nothing is
    // written then.
    pub fn new(taps: &mut [f32], history: &mut [f32]) -> HilbertDone
        ensures { (result, taps.new, history.new) ≡ made taps.old history.old }
    {
        let allowed = crate::rules::taps_allowed(taps.len());
        let fits = fir::history_fits(taps, history);
        if let Err(refusal) = stage::demands(allowed, true, true, fits, true) {
            return crate::rules::answer_of(u32::from(refusal));
        }
        crate::taps::design(taps);
        fir::clear(history);
        crate::rules::answer_of(stage::NONE)
    }
}
