// Which function a case is for, by the line of its name in data/calls.txt.
use crate::answer::Answer;
use crate::case::Case;
use crate::lent::Five;
use crate::{conversions, demodulators, filters, levels, numbers, oscillator, sidebands};
use std::alloc::{AllocError, Global};

#[derive(Clone, Copy)]
pub enum Call {
    Number(numbers::Call),
    Conversion(conversions::Call),
    Filter(filters::Call),
    Level(levels::Call),
    Demodulator(demodulators::Call),
    Sideband(sidebands::Call),
    Oscillator(oscillator::Call),
}

// No call's name stands in the line.
#[derive(Debug, Drop)]
pub struct NoCall;

impl TryFrom<u32> for Call {
    type Error = NoCall;

    fn try_from(line: u32) -> Result<Call, NoCall> {
        Ok(match line {
            0 => Call::Number(numbers::Call::Sqrt),
            1 => Call::Number(numbers::Call::Narrow),
            2 => Call::Number(numbers::Call::NarrowAlone),
            3 => Call::Number(numbers::Call::MagnitudeF32),
            4 => Call::Number(numbers::Call::SineF32),
            5 => Call::Number(numbers::Call::CosineF32),
            6 => Call::Number(numbers::Call::ArctangentF32),
            7 => Call::Number(numbers::Call::Widen),
            8 => Call::Number(numbers::Call::MagnitudeF64),
            9 => Call::Number(numbers::Call::Sine),
            10 => Call::Number(numbers::Call::Cosine),
            11 => Call::Number(numbers::Call::Arctangent),
            12 => Call::Number(numbers::Call::Whole),
            13 => Call::Number(numbers::Call::FiniteF32),
            14 => Call::Number(numbers::Call::FiniteF64),
            15 => Call::Conversion(conversions::Call::Convert),
            16 => Call::Conversion(conversions::Call::ConvertInverted),
            17 => Call::Filter(filters::Call::DesignLowpass),
            18 => Call::Filter(filters::Call::New),
            19 => Call::Filter(filters::Call::WithFactor),
            20 => Call::Filter(filters::Call::ProcessInto),
            21 => Call::Filter(filters::Call::Reset),
            22 => Call::Filter(filters::Call::UpdateCutoff),
            23 => Call::Level(levels::Call::DcRemoverNew),
            24 => Call::Level(levels::Call::DcRemoverProcess),
            25 => Call::Level(levels::Call::DcRemoverProcessMono),
            26 => Call::Level(levels::Call::DcRemoverProcessSplit),
            27 => Call::Level(levels::Call::AgcNew),
            28 => Call::Level(levels::Call::AgcProcess),
            29 => Call::Level(levels::Call::AudioAgcNew),
            30 => Call::Level(levels::Call::AudioAgcProcess),
            31 => Call::Demodulator(demodulators::Call::FmNew),
            32 => Call::Demodulator(demodulators::Call::FmWithDeemphasis),
            33 => Call::Demodulator(demodulators::Call::FmProcessInto),
            34 => Call::Demodulator(demodulators::Call::AmNew),
            35 => Call::Demodulator(demodulators::Call::AmProcessInto),
            36 => Call::Sideband(sidebands::Call::HilbertNew),
            37 => Call::Sideband(sidebands::Call::HilbertProcessInto),
            38 => Call::Sideband(sidebands::Call::SsbNew),
            39 => Call::Sideband(sidebands::Call::SsbProcessInto),
            40 => Call::Oscillator(oscillator::Call::New),
            41 => Call::Oscillator(oscillator::Call::SetFreq),
            42 => Call::Oscillator(oscillator::Call::Mix),
            43 => Call::Oscillator(oscillator::Call::Reset),
            _ => return Err(NoCall),
        })
    }
}

impl Call {
    // The call that a case runs. Where the call of its line is not one that is lent what the case lends, or no call has
    // the line, another runs in its place, so that every case is held to an answer.
    pub fn of(line: u32, is_lent: bool) -> Call {
        match Call::try_from(line) {
            Ok(call) if call.is_lent() == is_lent => call,
            // Number work that is lent slices.
            Ok(Call::Number(_)) => Call::Conversion(conversions::Call::ConvertInverted),
            // A DC remover or a gain control that is lent none, but for the last of them.
            Ok(Call::Level(call)) if !is_lent && !matches!(call, levels::Call::AudioAgcProcess) => {
                Call::Level(levels::Call::AudioAgcNew)
            }
            _ if is_lent => Call::Oscillator(oscillator::Call::Mix),
            _ => Call::Oscillator(oscillator::Call::Reset),
        }
    }

    // Whether the call is lent slices.
    pub fn is_lent(self) -> bool {
        match self {
            Call::Number(_) => false,
            Call::Conversion(_) | Call::Filter(_) | Call::Sideband(_) => true,
            Call::Level(call) => call.is_lent(),
            Call::Demodulator(call) => call.is_lent(),
            Call::Oscillator(call) => call.is_lent(),
        }
    }

    // What the call answers by value. It leaves the rest in what it is lent.
    pub fn run(
        self,
        alloc: Global,
        case: &Case,
        lent: &mut Five<Vec<f32>>,
    ) -> Result<Answer, AllocError> {
        Ok(match self {
            Call::Number(call) => call.run(case),
            Call::Conversion(call) => {
                let source = case.slices.first.bytes(alloc)?;
                call.run(source.as_slice(), lent.second.as_mut_slice())
            }
            Call::Filter(call) => call.run(case, lent),
            Call::Level(call) => call.run(case, lent),
            Call::Demodulator(call) => call.run(case, lent),
            Call::Sideband(call) => call.run(case, lent),
            Call::Oscillator(call) => call.run(case, lent.first.as_mut_slice()),
        })
    }
}
