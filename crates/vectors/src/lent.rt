// The slices that a call is lent: filled from the file before it, and held to the file afterwards.
//
// A slice's header has its length, how many words tell it before the call, and how many after it. They stand one
// after the other, and every place past them holds 0.0.
use crate::words::{Reader, at};
use std::alloc::{AllocError, Global};
use std::num::{f32_from_bits_with_nan, f32_to_bits_with_nan};

// In place of how many words tell a slice after the call: it stays as it was.
const STAYS: usize = 0xFFFF_FFFF;

// The most places of a first slice, two more than the limit, and of any other.
pub const FIRST: usize = 262146;

const OTHER: usize = 1024;

// One of something for each slice, in the order of the call, the input first.
#[derive(Drop)]
pub struct Five<T> {
    pub first: T,
    pub second: T,
    pub third: T,
    pub fourth: T,
    pub fifth: T,
}

// A slice as the file tells it: its length, the words before the call, and those after it, unless it stays as it was.
#[derive(Clone, Copy)]
pub struct Told<'a> {
    length: usize,
    before: &'a [u32],
    after: Option<&'a [u32]>,
}

impl<'a> Told<'a> {
    fn read(headers: &mut Reader<'a>, words: &mut Reader<'a>) -> Told<'a> {
        let length = headers.count();
        let before = words.take(headers.count());
        let after = match headers.count() {
            STAYS => None,
            n => Some(words.take(n)),
        };
        Told {
            length,
            before,
            after,
        }
    }

    // The slice before the call. One that is longer than `most` is cut there, and then it disagrees.
    fn floats(&self, alloc: Global, most: usize) -> Result<Vec<f32>, AllocError> {
        let mut floats = vec![in alloc; 0.0; self.length.min(most)]?;
        for (float, word) in floats.as_mut_slice().iter_mut().zip(self.before) {
            *float = f32_from_bits_with_nan(*word);
        }
        Ok(floats)
    }

    // The same of bytes: of each word the lowest.
    pub fn bytes(&self, alloc: Global) -> Result<Vec<u8>, AllocError> {
        let mut bytes = vec![in alloc; 0; self.length.min(FIRST)]?;
        for (byte, word) in bytes.as_mut_slice().iter_mut().zip(self.before) {
            *byte = (*word % 256) as u8;
        }
        Ok(bytes)
    }

    // Whether the slice is as long as the file tells, and every place of it holds what the file tells after the call.
    pub fn agrees(&self, lent: &[f32]) -> bool {
        let told = self.after.unwrap_or(self.before);
        self.length == lent.len()
            && lent
                .iter()
                .enumerate()
                .all(|(i, x)| f32_to_bits_with_nan(*x) == at(told, i))
    }
}

impl<'a> Five<Told<'a>> {
    // Past the last word a header is of an empty slice.
    pub fn read(headers: &mut Reader<'a>, words: &mut Reader<'a>) -> Five<Told<'a>> {
        Five {
            first: Told::read(headers, words),
            second: Told::read(headers, words),
            third: Told::read(headers, words),
            fourth: Told::read(headers, words),
            fifth: Told::read(headers, words),
        }
    }

    // The first slice is cut at `first` places.
    pub fn floats(&self, alloc: Global, first: usize) -> Result<Five<Vec<f32>>, AllocError> {
        Ok(Five {
            first: self.first.floats(alloc, first)?,
            second: self.second.floats(alloc, OTHER)?,
            third: self.third.floats(alloc, OTHER)?,
            fourth: self.fourth.floats(alloc, OTHER)?,
            fifth: self.fifth.floats(alloc, OTHER)?,
        })
    }

    pub fn agree(&self, lent: &Five<Vec<f32>>) -> bool {
        self.first.agrees(lent.first.as_slice())
            && self.second.agrees(lent.second.as_slice())
            && self.third.agrees(lent.third.as_slice())
            && self.fourth.agrees(lent.fourth.as_slice())
            && self.fifth.agrees(lent.fifth.as_slice())
    }
}
