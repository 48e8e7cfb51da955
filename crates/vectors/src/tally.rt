// How many cases there are of each call and of each number, and how many of them agree.
use crate::calls::Call;
use crate::case::Case;
use crate::replay;
use crate::words::{WORD, words};
use std::alloc::{AllocError, Global};
use std::fmt;

// The lines that are counted, and where among them those of the numbers begin.
const LINES: usize = 64;

const NUMBERS: usize = 48;

// A name's line of data/calls.txt, with its end.
const NAME: usize = 32;

// The most cases that are run, so that a file that leads nowhere ends too.
const CASES: u32 = 5000;

#[derive(Clone, Copy, Default)]
struct Tally {
    cases: u64,
    agree: u64,
}

impl Tally {
    fn add(&mut self, agrees: bool) {
        self.cases = self.cases.saturating_add(1);
        self.agree = self.agree.saturating_add(u64::from(agrees));
    }
}

impl fmt::Display for Tally {
    fn fmt<W: fmt::Write>(&self, f: &mut fmt::Formatter<W>) -> fmt::Result {
        let agree = self.agree;
        let cases = self.cases;
        write!(f, "{agree} of {cases} agree")
    }
}

// Runs every case of the file and tells the sums, each after its name. A line that cannot be written is left out.
pub fn tell(
    rt: &(impl Print + AllocGlobal),
    names: &[u8],
    file: Vec<u8>,
) -> Result<(), AllocError> {
    let tallies = tallies(rt.alloc(), file)?;
    for (name, tally) in names.chunks_exact(NAME).zip(tallies.iter()) {
        if tally.cases > 0 {
            line(rt, name, *tally);
        }
    }
    Ok(())
}

fn line(rt: &impl Print, name: &[u8], tally: Tally) {
    if let Some((_, name)) = name.split_last() {
        let _ = rt.write_all(name);
    }
    let _ = rt.println(tally);
}

// A case ends where the next one begins. The file's bytes are let go once its words are there.
fn tallies(alloc: Global, file: Vec<u8>) -> Result<[Tally; LINES], AllocError> {
    let whole_words = file.len() / WORD;
    let words = words(alloc, file.as_slice())?;
    drop(file);
    let mut tallies = [Tally::default(); LINES];
    let mut at = 0;
    for _ in 0..CASES {
        if at >= whole_words {
            break;
        }
        let case = Case::read(words.get(at..).unwrap_or(&[]));
        let agrees = replay::agrees(alloc, &case)?;
        tallies[case.line as usize % LINES].add(agrees);
        // The number work has no refusals.
        if !matches!(Call::try_from(case.line), Ok(Call::Number(_))) {
            tallies[NUMBERS + case.refusal as usize % 16].add(agrees);
        }
        at = at.saturating_add(case.words);
    }
    Ok(tallies)
}
