// The converter. Its source is told as bytes, and is lent to be read alone.
use crate::answer::Answer;

#[derive(Clone, Copy)]
pub enum Call {
    Convert,
    ConvertInverted,
}

impl Call {
    pub fn run(self, source: &[u8], samples: &mut [f32]) -> Answer {
        match self {
            Call::Convert => converter::convert(source, samples).into(),
            Call::ConvertInverted => converter::convert_inverted(source, samples).into(),
        }
    }
}
