// One case of the file: a line of words, in the order that data/README.md tells.
use crate::answer::Answer;
use crate::lent::{Five, Told};
use crate::words::Reader;
use std::num::f32_from_bits_with_nan;

#[derive(Drop)]
pub struct Case<'a> {
    // The line of the call's name.
    pub line: u32,
    pub words: usize,
    pub singles: [f32; 6],
    pub patterns: [u64; 6],
    // None where more patterns are told than a call answers.
    pub answer: Option<Answer>,
    // The number that the case is counted under.
    pub refusal: u32,
    pub is_lent: bool,
    pub slices: Five<Told<'a>>,
}

impl<'a> Case<'a> {
    // The case that begins with these words.
    pub fn read(words: &'a [u32]) -> Case<'a> {
        let mut words = Reader::new(words);
        let line = words.word();
        let count = words.count();
        let [given, given_patterns] = [words.count(), words.count()];
        let [told, told_patterns] = [words.count(), words.count()];
        let slices = words.count();
        // Any count but 0 stands for five slices: where there are fewer, what stands next is read as headers.
        let is_lent = slices > 0;
        let mut headers = if is_lent { words } else { Reader::new(&[]) };
        words.skip(slices, 3);
        let singles = words
            .singles(given)
            .map(|bits| f32_from_bits_with_nan(bits));
        let patterns = words.patterns(given_patterns);
        let told_singles = words.singles(told);
        // Where no pattern is told, the word that stands there is the refusal all the same.
        let refusal = words.peek();
        let answer = Answer::told(told_singles, words.patterns(told_patterns), told_patterns);
        Case {
            line,
            words: count,
            singles,
            patterns,
            answer,
            refusal,
            is_lent,
            slices: Five::read(&mut headers, &mut words),
        }
    }
}
