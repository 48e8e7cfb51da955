// Samples of history and input in a row, copied into one slice: for windows that reach across the two.
ghost use Rattle.std.specs.Prelude.{◌≡◌, ◌++◌, ◌+◌, ◌<◌, ◌≤◌, length, take, drop};

use crate::work::Work;

impl Work<'_> {
    // As many samples as e has places, from place `at` on.
    pub(crate) fn gather(&self, at: usize, e: &mut [f32])
        requires behind { length self.now.history.now ≤ at + length e.old }
        requires within { at + length e.old ≤ length self.now.history.now + length self.now.input.now }
        ensures { e.new ≡ take (length e.old) (drop at (self.now.history.now ++ self.now.input.now)) }
    {
        let h = self.history.len();
        if h <= at {
            copy(&self.input[at - h..at - h + e.len()], e);
        } else {
            self.across(at, e);
        }
    }

    // The same where `at` is in the history.
    pub(crate) fn across(&self, at: usize, e: &mut [f32])
        requires before { at < length self.now.history.now }
        requires behind { length self.now.history.now ≤ at + length e.old }
        requires within { at + length e.old ≤ length self.now.history.now + length self.now.input.now }
        ensures { e.new ≡ take (length e.old) (drop at (self.now.history.now ++ self.now.input.now)) }
    {
        let k = self.history.len() - at;
        let rest = e.len() - k;
        copy(&self.history[at..], &mut e[..k]);
        copy(&self.input[..rest], &mut e[k..]);
    }
}

// Writes `from` to a slice of as many places.
// Stays: copy_from_slice becomes a call of memmove where the compiler can't tell that the two lie apart, and the
// archive may call memcpy and memset alone (tests/symbols.sh).
pub(crate) fn copy(from: &[f32], to: &mut [f32])
    requires { length to.old ≡ length from.now }
    ensures { to.new ≡ from.now }
{
    for (i, x) in from.iter().enumerate() {
        to[i] = *x;
    }
}
