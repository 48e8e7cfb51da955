// The rule on a filter's number of taps.
ghost use Rattle.std.specs.Prelude.{◌≡◌};
ghost use Rattle.stage.specs.Taps.{odd_up_to};

// Whether n taps are odd, 3 at least and `most` at most.
pub fn odd_up_to(n: usize, most: usize) -> bool
    ensures { result ≡ odd_up_to most n }
{
    (n % 2 == 1) & (3 <= n) & (n <= most)
}
