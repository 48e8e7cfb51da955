// A demodulator made: its taps designed, its histories cleared.
ghost use Rattle.std.specs.Prelude.{◌≡◌};
ghost use Rattle.ssb.specs.Making.{made};

use crate::{SsbDemodulator, SsbDone};

impl SsbDemodulator {
    // Writes the Hilbert filter's taps and clears both histories. Refused are SETTING for a number of taps that no
    // Hilbert filter may have, and LENGTH where it is not 65, the history of Q not 64 or that of I not 32; the answer
    // is then a record of zeros, and nothing is written.
    pub fn new(
        is_usb: bool,
        taps: &mut [f32],
        q_history: &mut [f32],
        i_history: &mut [f32],
    ) -> SsbDone
        ensures { (result, taps.new, q_history.new, i_history.new) ≡ made is_usb taps.old q_history.old i_history.old }
    {
        let demands = stage::demands(
            hilbert::taps_allowed(taps.len()),
            true,
            true,
            crate::rules::lengths_fit(taps, q_history, i_history),
            true,
        );
        if let Err(refusal) = demands {
            return SsbDemodulator::default().answer(u32::from(refusal), 0);
        }
        hilbert::HilbertFilter::new(taps, q_history);
        fir::clear(i_history);
        SsbDemodulator { is_usb }.answer(stage::NONE, 0)
    }
}
