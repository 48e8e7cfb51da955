// The demo of document 01: pairs of bytes on standard input, as the dongle gives them, and f32 little-endian of sound
// on standard output.
//
// `receiver` does the work and says what it gives; this program only moves bytes. It reads what the pipe has, up to a
// block, keeps an odd byte for the next turn, and so writes the same bytes however the input is cut. Its memory is that
// of one block. No input writes nothing. An odd last byte gives no sample and the line `odd input` on descriptor 2,
// where a read or a write that fails is told too. The exit status is 0 all the same.
#![tactic(auto)]

ghost use Rattle.std.specs.Prelude.{◌≤◌, length};

use receiver::{BLOCK, Receiver, SOUND};
use std::io;
use std::io::Read;

// The receiver with its taps and histories, and a byte that waits for its pair.
#[derive(Drop)]
struct Listener {
    receiver: Receiver,
    taps: [f32; 121],
    i_history: [f32; 120],
    q_history: [f32; 120],
    odd: Option<u8>,
}

// Why there is no further turn.
#[derive(Drop)]
enum End {
    Whole,
    Odd,
    Refused,
    Read(io::Error),
    Write(io::Error),
}

// A proved loop has to end, and nothing says that an input does. So the turns are counted, up to a number that no run
// reaches.
fn main(rt: HostRuntime) {
    let mut listener = Listener::new();
    let mut input = rt.stdin();
    let mut block = [0; BLOCK];
    for _ in 0..u64::MAX {
        if let Err(end) = listener.turn(&rt, &mut input, &mut block) {
            let _ = end.tell(&rt);
            break;
        }
    }
}

impl Listener {
    fn new() -> Listener {
        let mut taps = [0.0; 121];
        let mut i_history = [0.0; 120];
        let mut q_history = [0.0; 120];
        let made = Receiver::new(&mut taps, &mut i_history, &mut q_history);
        Listener {
            receiver: made.state,
            taps,
            i_history,
            q_history,
            odd: None,
        }
    }

    // One read, and the sound of the whole pairs that there are then. The byte that waits goes before what is read.
    fn turn(&mut self, rt: &impl Print, input: &mut impl Read, block: &mut [u8]) -> Result<(), End>
        requires { 1 ≤ length block.old }
    {
        let held = match self.odd {
            None => 0,
            Some(byte) => {
                block[0] = byte;
                1
            }
        };
        match input.read(&mut block[held..]) {
            Ok(0) if held == 0 => Err(End::Whole),
            Ok(0) => Err(End::Odd),
            Ok(got) => self.play(rt, &block[..held + got]),
            Err(error) => Err(End::Read(error)),
        }
    }

    // The sound of the whole pairs of these bytes. An odd one waits for the next.
    fn play(&mut self, rt: &impl Print, bytes: &[u8]) -> Result<(), End> {
        let n = bytes.len();
        let (pairs, odd) = bytes.split_at(n - n % 2);
        let mut sound = [0; SOUND];
        let done = self.receiver.receive(
            &self.taps,
            &mut self.i_history,
            &mut self.q_history,
            pairs,
            &mut sound,
        );
        rt.write_all(&sound[..done.count]).map_err(End::Write)?;
        if done.refusal != 0 {
            return Err(End::Refused);
        }
        self.receiver = done.state;
        self.odd = odd.first().copied();
        Ok(())
    }
}

impl End {
    // The line on descriptor 2, where there is something to tell.
    fn tell(self, rt: &(impl Eprint + AllocGlobal)) -> io::Result<()> {
        match self {
            End::Whole | End::Refused => Ok(()),
            End::Odd => rt.eprintln("odd input"),
            End::Read(error) => fail(rt, "read", error),
            End::Write(error) => fail(rt, "write", error),
        }
    }
}

// A line on descriptor 2: what failed, and why.
// Stays: `vectors` has these two functions too; a library for two programs would be longer than they are.
fn fail(rt: &(impl Eprint + AllocGlobal), what: &str, error: io::Error) -> io::Result<()> {
    let text = format!(in rt.alloc(); "{error}")?;
    let why = without_number(text.as_str());
    eprintln!(rt; "{what}: {why}")
}

// The system's words for an error, without its number, which `io::Error` writes after them.
fn without_number(text: &str) -> &str {
    match text.split_once(" (os error ") {
        Some((before, _)) => before,
        None => text,
    }
}
