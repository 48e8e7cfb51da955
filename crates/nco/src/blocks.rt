// The way through a slice: four pairs at a time as far as their results are all near to 1 in size, which the compiler
// works side by side, and a stretch of single pairs where some are not. Each pair's operations are the same in both.
ghost use Rattle.std.specs.Prelude.{◌≡◌, true, ◌*◌, ◌/◌, ◌≤◌, ◌<◌, length};
ghost use Rattle.stage.specs.Length.{is_even};
ghost use Rattle.nco.specs.Mix.{mixed_outs, phase_after};
ghost use Rattle.nco.specs.Blocks.{ahead};

use crate::Nco;
use crate::turn::{Turn, mixed};

// How many single pairs are worked before four at a time are tried again, so that a block that is not near is looked at
// once in a while only.
const STRETCH: usize = 16;

// Where a mixing stands: before the pair k of the slice.
#[derive(Clone, Copy)]
pub struct Place {
    pub k: usize,
    pub turn: Turn,
}

impl Nco {
    // Answers the phase after the last pair, before the turn is taken off.
    pub(crate) fn run(self, iq: &mut [f32]) -> f64
        requires { is_even (length iq.old) ≡ true }
        ensures phase { result ≡ phase_after self iq.old }
        ensures mixed { iq.new ≡ mixed_outs self iq.old }
    {
        let turn = Turn {
            cosine: angle::turn::cosine(self.phase),
            sine: angle::turn::sine(self.phase),
            phase: self.phase,
        };
        let mut place = Place { k: 0, turn };
        // Stays: how far a turn of this loop goes shows only when it is done, so nothing can count the turns.
        while place.k < iq.len() / 2 {
            place = self.fours(iq, place);
            place = self.singles(iq, place);
        }
        place.turn.phase
    }

    // Four pairs at a time, to where fewer are left or one of their results is not near.
    fn fours(self, iq: &mut [f32], from: Place) -> Place
        requires { from.k ≤ length iq.old / 2 }
        ensures place { (from.k ≤ result.k) × (result.k ≤ length iq.new / 2) }
        ensures same_rest { ahead self iq.new (2 * result.k) result.turn ≡ ahead self iq.old (2 * from.k) from.turn }
    {
        let mut place = from;
        while let Some(eight) = iq[2 * place.k..].first_chunk::<8>() {
            let Some(mixed) = self.four(place.turn, *eight) else {
                return place;
            };
            let results = mixed.0;
            iq[2 * place.k..2 * place.k + 8].copy_from_slice(&results);
            place = Place {
                k: place.k + 4,
                turn: mixed.1,
            };
        }
        place
    }

    // Pair by pair, for a stretch.
    fn singles(self, iq: &mut [f32], from: Place) -> Place
        requires { from.k ≤ length iq.old / 2 }
        ensures place { (from.k ≤ result.k) × (result.k ≤ length iq.new / 2) }
        ensures goes_on { from.k < length iq.new / 2 → from.k < result.k }
        ensures same_rest { ahead self iq.new (2 * result.k) result.turn ≡ ahead self iq.old (2 * from.k) from.turn }
    {
        let to = usize::min(from.k + STRETCH, iq.len() / 2);
        let mut turn = from.turn;
        for k in from.k..to {
            let i = number::widen::widen(iq[2 * k]);
            let q = number::widen::widen(iq[2 * k + 1]);
            let pair = mixed(turn, i, q);
            iq[2 * k] = number::alone::narrow(pair.i);
            iq[2 * k + 1] = number::alone::narrow(pair.q);
            turn = self.next(turn);
        }
        Place { k: to, turn }
    }
}
