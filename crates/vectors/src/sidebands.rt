// Hilbert filter and SSB demodulator.
use crate::answer::Answer;
use crate::case::Case;
use crate::lent::Five;
use hilbert::{HilbertDone, HilbertFilter};
use ssb::{SsbDemodulator, SsbDone};

#[derive(Clone, Copy)]
pub enum Call {
    HilbertNew,
    HilbertProcessInto,
    SsbNew,
    SsbProcessInto,
}

impl Call {
    // Of the SSB demodulator the histories are lent with Q's first.
    pub fn run(self, case: &Case, lent: &mut Five<Vec<f32>>) -> Answer {
        let is_usb = case.patterns[0] != 0;
        let a = lent.first.as_mut_slice();
        let b = lent.second.as_mut_slice();
        let c = lent.third.as_mut_slice();
        let d = lent.fourth.as_mut_slice();
        match self {
            Call::HilbertNew => HilbertFilter::new(a, b).into(),
            Call::HilbertProcessInto => HilbertFilter::process_into(b, c, a, d).into(),
            Call::SsbNew => SsbDemodulator::new(is_usb, a, b, c).into(),
            Call::SsbProcessInto => {
                let output = lent.fifth.as_mut_slice();
                let state = SsbDemodulator { is_usb };
                state.process_into(b, c, d, a, output).into()
            }
        }
    }
}

impl From<HilbertDone> for Answer {
    fn from(r: HilbertDone) -> Answer {
        Answer::new(&[], &[u64::from(r.refusal), r.count as u64])
    }
}

impl From<SsbDone> for Answer {
    fn from(r: SsbDone) -> Answer {
        Answer::new(
            &[],
            &[
                u64::from(r.refusal),
                u64::from(r.state.is_usb),
                r.count as u64,
            ],
        )
    }
}
