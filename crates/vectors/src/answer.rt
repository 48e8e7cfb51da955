// What a call answers by value: up to six singles, and up to six patterns of 64 bits, which are whole numbers, flags
// and the bits of doubles. The refusal is the first pattern. Places past the last number are 0.
use std::array;
use std::num::{f32_to_bits_with_nan, f64_to_bits_with_nan};

// Singles by their bits, all NaNs as one, so two answers are equal where each float is to the bit.
#[derive(Clone, Copy, PartialEq, Eq)]
pub struct Answer {
    singles: [u32; 6],
    patterns: [u64; 6],
}

impl Answer {
    pub fn new(singles: &[f32], patterns: &[u64]) -> Answer {
        Answer {
            singles: array::from_fn(|i| singles.get(i).map_or(0, |x| f32_to_bits_with_nan(*x))),
            patterns: array::from_fn(|i| patterns.get(i).copied().unwrap_or(0)),
        }
    }

    // The answer that a file tells, of n patterns: those past them are 0. None where they are more than a call answers.
    pub fn told(singles: [u32; 6], patterns: [u64; 6], n: usize) -> Option<Answer> {
        let answer = Answer {
            singles,
            patterns: array::from_fn(|i| if i < n { patterns[i] } else { 0 }),
        };
        (n <= 6).then_some(answer)
    }
}

impl From<f32> for Answer {
    fn from(x: f32) -> Answer {
        Answer::new(&[x], &[])
    }
}

impl From<f64> for Answer {
    fn from(x: f64) -> Answer {
        Answer::from(f64_to_bits_with_nan(x))
    }
}

// A whole number.
impl From<u64> for Answer {
    fn from(n: u64) -> Answer {
        Answer::new(&[], &[n])
    }
}

impl From<bool> for Answer {
    fn from(flag: bool) -> Answer {
        Answer::from(u64::from(flag))
    }
}

// A refusal alone.
impl From<u32> for Answer {
    fn from(refusal: u32) -> Answer {
        Answer::from(u64::from(refusal))
    }
}
