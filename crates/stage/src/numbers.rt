// The five reasons for a refusal with their numbers, and the two demands on lengths that many calls make.
ghost use Rattle.std.specs.Prelude.{◌≡◌, cond, Ok, Err};
ghost use Rattle.stage.specs.Refusal.{refusal_no};
ghost use Rattle.stage.specs.Numbers.{number, number_of};
ghost use Rattle.stage.specs.Length.{is_within, is_even};

// Why a call is refused: document 01, "Five numbers". What each says of the call stands at its number's definition.
#[derive(Clone, Copy, Debug, PartialEq, Eq)]
pub enum Refusal {
    Setting,
    State,
    Limit,
    Length,
    Room,
}

// The number of a call that is not refused.
pub const NONE: u32 = 0;

impl From<Refusal> for u32 {
    ghost from_gives = { λ refusal result. result ≡ number refusal };

    fn from(refusal: Refusal) -> u32 {
        match refusal {
            Refusal::Setting => 1,
            Refusal::State => 2,
            Refusal::Limit => 3,
            Refusal::Length => 4,
            Refusal::Room => 5,
        }
    }
}

// The most elements that an input or an in-place slice may have.
pub const LONGEST: usize = 262_144;

// The first demand that is not met, in the order of the table.
// Stays: the flags are the table's rows in its order, as `refusal_no` takes them; single calls could ask in another.
// A flag says that its demand is met; a call that makes no such demand passes true.
pub fn demands(
    setting: bool,
    state: bool,
    limit: bool,
    length: bool,
    room: bool,
) -> Result<(), Refusal>
    ensures { number_of result ≡ refusal_no setting state limit «length» room }
{
    demand(setting, Refusal::Setting)?;
    demand(state, Refusal::State)?;
    demand(limit, Refusal::Limit)?;
    demand(length, Refusal::Length)?;
    demand(room, Refusal::Room)
}

fn demand(met: bool, refusal: Refusal) -> Result<(), Refusal>
    ensures { result ≡ cond met (Ok tt) (Err refusal) }
{
    if met { Ok(()) } else { Err(refusal) }
}

// Whether a slice of n elements is within the limit, LONGEST itself included.
pub fn within(n: usize) -> bool
    ensures { result ≡ is_within n }
{
    n <= LONGEST
}

// Whether n elements are whole pairs.
pub fn even(n: usize) -> bool
    ensures { result ≡ is_even n }
{
    n % 2 == 0
}
