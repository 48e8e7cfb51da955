// A receiver made: its taps designed, its histories cleared.
ghost use Rattle.std.specs.Prelude.{◌≡◌};
ghost use Rattle.receiver.specs.Making.{made};

use crate::{Received, Receiver, rules};
use decimator::Decimator;
use fm::FmDemodulator;

impl Receiver {
    // Writes the taps of `with_factor(10)` and clears both histories. LENGTH is given where there are not 121 taps or
    // not 120 places in either history; the answer is then a record of zeros, and nothing is written.
    pub fn new(taps: &mut [f32], i_history: &mut [f32], q_history: &mut [f32]) -> Received
        ensures { (result, taps.new, i_history.new, q_history.new) ≡ made taps.old i_history.old q_history.old }
    {
        let fits = rules::lengths_fit(taps, i_history, q_history);
        if let Err(refusal) = stage::demands(true, true, true, fits, true) {
            return Receiver::default().silent(u32::from(refusal));
        }
        Decimator::with_factor(10, taps, i_history);
        Decimator::with_factor(10, taps, q_history);
        let made = FmDemodulator::new();
        Receiver {
            phase: 0,
            fm: made.state,
        }
        .silent(stage::NONE)
    }
}
