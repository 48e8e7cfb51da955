// How many outputs a block gives, and how many samples of the next block come before its first.
ghost use Rattle.std.specs.Prelude.{◌≡◌};
ghost use Rattle.fir.specs.Filter.{count_of, next_phase};

// The number of outputs of n samples, where the first is taken after `phase` of them. A factor of 0 gives none.
pub fn count(factor: usize, phase: usize, n: usize) -> usize
    ensures { result ≡ count_of factor phase n }
{
    if n <= phase {
        return 0;
    }
    if factor == 0 {
        return 0;
    }
    (n - phase - 1) / factor + 1
}

// The phase after n samples.
pub fn next_phase(factor: usize, phase: usize, n: usize) -> usize
    ensures { result ≡ next_phase factor phase n }
{
    if n <= phase {
        return phase - n;
    }
    if factor == 0 {
        return 0;
    }
    factor - 1 - (n - phase - 1) % factor
}
