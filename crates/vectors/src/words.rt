// The words of a file: eight hexadecimal digits each, and one byte after them.
ghost use Rattle.std.specs.Prelude.{◌≤◌};

use std::alloc::{AllocError, Global};
use std::array;

// How many bytes a word takes.
pub const WORD: usize = 9;

// No case has so many numbers or slices. A step over them is taken modulo this, but what is read of them is not.
const MANY: usize = 1024;

// Every word of the file. Of a last one that is cut short, the digits that are missing are 0.
pub fn words(alloc: Global, file: &[u8]) -> Result<Vec<u32>, AllocError> {
    file.chunks(WORD).map(word).collect(alloc)
}

fn word(bytes: &[u8]) -> u32 {
    (0..8).fold(0, |word, i| {
        word << 4 | bytes.get(i).map_or(0, |b| digit(*b))
    })
}

// Of a digit or a capital letter; 0 for any other byte.
// Stays: `to_digit` would take small letters too, and the program has always read them as 0.
fn digit(byte: u8) -> u32
    ensures { result ≤ 15 }
{
    match byte {
        b'0'..=b'9' => u32::from(byte - b'0'),
        b'A'..=b'F' => u32::from(byte - b'A' + 10),
        _ => 0,
    }
}

// The word at i, and 0 past the end.
pub fn at(words: &[u32], i: usize) -> u32 {
    words.get(i).copied().unwrap_or(0)
}

// Reads words one after the other. Past the last one each is 0, so nothing here asks anything of a file.
#[derive(Clone, Copy)]
pub struct Reader<'a> {
    rest: &'a [u32],
}

impl<'a> Reader<'a> {
    pub fn new(rest: &'a [u32]) -> Reader<'a> {
        Reader { rest }
    }

    // The next word, which stays the next.
    pub fn peek(&self) -> u32 {
        at(self.rest, 0)
    }

    pub fn word(&mut self) -> u32 {
        at(self.take(1), 0)
    }

    pub fn count(&mut self) -> usize {
        self.word() as usize
    }

    // The next n words, or those that are left.
    pub fn take(&mut self, n: usize) -> &'a [u32] {
        let (taken, rest) = self.rest.split_at(n.min(self.rest.len()));
        self.rest = rest;
        taken
    }

    // Steps over n things of so many words each.
    pub fn skip(&mut self, n: usize, each: usize) {
        let _ = self.take((n % MANY).saturating_mul(each));
    }

    // The bits of the first six of n singles. Where there are fewer, 0 stands in the places that are left.
    pub fn singles(&mut self, n: usize) -> [u32; 6] {
        let told = self.rest;
        self.skip(n, 1);
        array::from_fn(|i| if i < n { at(told, i) } else { 0 })
    }

    // The first six of n patterns. Each is two words, the higher one second. Where there are fewer, what stands next is
    // read as if it were theirs.
    pub fn patterns(&mut self, n: usize) -> [u64; 6] {
        let told = self.rest;
        self.skip(n, 2);
        array::from_fn(|i| u64::from(at(told, 2 * i + 1)) << 32 | u64::from(at(told, 2 * i)))
    }
}
