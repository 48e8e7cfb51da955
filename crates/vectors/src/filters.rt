// Lowpass design and decimator.
use crate::answer::Answer;
use crate::case::Case;
use crate::lent::Five;
use decimator::{Decimated, Decimator};

#[derive(Clone, Copy)]
pub enum Call {
    DesignLowpass,
    New,
    WithFactor,
    ProcessInto,
    Reset,
    UpdateCutoff,
}

impl Call {
    // Taps and history are lent, in this order; to `process_into` the input before them and the output after.
    pub fn run(self, case: &Case, lent: &mut Five<Vec<f32>>) -> Answer {
        let cutoff = case.singles[0];
        let state = Decimator {
            factor: case.patterns[0] as usize,
            phase: case.patterns[1] as usize,
        };
        let a = lent.first.as_mut_slice();
        let b = lent.second.as_mut_slice();
        match self {
            Call::DesignLowpass => lowpass::design_lowpass(a, cutoff).into(),
            Call::New => Decimator::new(state.factor, cutoff, a, b).into(),
            Call::WithFactor => Decimator::with_factor(state.factor, a, b).into(),
            Call::ProcessInto => {
                let history = lent.third.as_mut_slice();
                let output = lent.fourth.as_mut_slice();
                state.process_into(b, history, a, output).into()
            }
            Call::Reset => state.reset(a, b).into(),
            Call::UpdateCutoff => state.update_cutoff(cutoff, a, b).into(),
        }
    }
}

impl From<Decimated> for Answer {
    fn from(r: Decimated) -> Answer {
        let s = r.state;
        Answer::new(
            &[],
            &[
                u64::from(r.refusal),
                s.factor as u64,
                s.phase as u64,
                r.count as u64,
            ],
        )
    }
}
