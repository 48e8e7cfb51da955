// Replays the stored answers of the Rust original on the proved code, and says of each call how many agree.
//
// data/answers.txt has the cases and data/calls.txt the calls' names; data/README.md tells their form and how they
// were made. Floats are held to the bit, all NaNs as one. What is proved here is that every function is safe and
// ends, whatever the files hold; that the answers agree is what the run shows. tests/vectors.py spoils the file and
// sees that the run shows that too.
#![tactic(auto)]

mod answer;
mod calls;
mod case;
mod conversions;
mod demodulators;
mod filters;
mod lent;
mod levels;
mod numbers;
mod oscillator;
mod replay;
mod sidebands;
mod tally;
mod words;

ghost use Rattle.std.specs.Prelude.{◌≤◌, IfOk, vec_len};

use std::alloc::AllocError;
use std::io::{ErrorKind, Read};
use std::rt::Files;
use std::{fs, io};

// The most bytes that are read of either file. What stands past them is left out.
const NAMES: usize = 4096;

const ANSWERS: usize = 262144;

fn main(rt: HostRuntime) {
    if replay_files(&rt).is_err() {
        let _ = rt.eprintln("replay: out of memory");
    }
}

fn replay_files(rt: &(impl Files + Print + Eprint + AllocGlobal)) -> Result<(), AllocError> {
    let names = load(rt, "calls.txt", NAMES)?;
    let file = load(rt, "answers.txt", ANSWERS)?;
    tally::tell(rt, names.as_slice(), file)
}

// The bytes of a file, `most` at most. One that cannot be opened is told on descriptor 2, and has none.
fn load(
    rt: &(impl Files + Eprint + AllocGlobal),
    path: &str,
    most: usize,
) -> Result<Vec<u8>, AllocError>
    ensures { IfOk result (λ bytes. vec_len bytes ≤ most) }
{
    let mut bytes = Vec::new(rt.alloc());
    match fs::open(rt, path) {
        Ok(file) => {
            // Room for the most that is read first, since a vector that grows takes twice as much; none for an empty file.
            if fs::metadata(rt, path).is_ok_and(|about| about.len() > 0) {
                bytes.try_reserve(most)?;
            }
            // Where a read fails, the bytes before it are what there is. Where memory runs out, there is more.
            if let Err(error) = file.take(most as u64).read_to_end(&mut bytes) {
                if error.kind() == ErrorKind::OutOfMemory {
                    return Err(AllocError);
                }
            }
            bytes.truncate(most);
        }
        Err(error) => {
            let _ = fail(rt, path, error);
        }
    }
    Ok(bytes)
}

// A line on descriptor 2: what failed, and why.
// Stays: the demo has these two functions too; a library for two programs would be longer than they are.
fn fail(rt: &(impl Eprint + AllocGlobal), what: &str, error: io::Error) -> io::Result<()> {
    let text = format!(in rt.alloc(); "{error}")?;
    let why = without_number(text.as_str());
    eprintln!(rt; "{what}: {why}")
}

// The system's words for an error, without its number, which `io::Error` writes after them.
fn without_number(text: &str) -> &str {
    match text.split_once(" (os error ") {
        Some((before, _)) => before,
        None => text,
    }
}
