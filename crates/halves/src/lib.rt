// I and Q of interleaved pairs, taken apart and put together again.
//
// Document 01, "The stages": a complex stream lies as pairs of I and Q. SSB takes one apart before its filters, the demo
// takes one apart before its decimators and puts it together behind them, and the DC remover works I and Q in two
// slices as pairs. `specs/Halves.antt` has the definitions.
// Slices whose lengths do not fit stay as they are. No public function here has a `requires`.
#![tactic(auto)]

ghost use Rattle.std.specs.Prelude.{◌≡◌, ◌+◌, length};
ghost use Rattle.stage.specs.Layout.{pairs, flat, zip, firsts, seconds};
ghost use Rattle.halves.specs.Halves.{fit, apart, together};

// Writes I and Q of each pair to their slices, which have a place for each pair; else nothing.
pub fn split(input: &[f32], i: &mut [f32], q: &mut [f32])
    ensures { (i.new, q.new) ≡ apart input.now i.old q.old }
{
    if fitting(input.len(), i.len(), q.len()) {
        take_apart(input, i, q);
    }
}

// Writes the pairs of I and Q, which are as many, to a slice that has two places for each; else nothing.
pub fn join(i: &[f32], q: &[f32], output: &mut [f32])
    ensures { output.new ≡ together i.now q.now output.old }
{
    if fitting(output.len(), i.len(), q.len()) {
        put_together(i, q, output);
    }
}

// Whether n floats are pairs of as many I as Q.
fn fitting(n: usize, i: usize, q: usize) -> bool
    ensures { result ≡ fit n i q }
{
    (n % 2 == 0) & (n / 2 == i) & (n / 2 == q)
}

fn take_apart(input: &[f32], i: &mut [f32], q: &mut [f32])
    requires { (length input.now ≡ length i.old + length i.old) × (length q.old ≡ length i.old) }
    ensures { (i.new ≡ firsts (pairs input.now)) × (q.new ≡ seconds (pairs input.now)) }
{
    for k in 0..i.len() {
        i[k] = input[2 * k];
        q[k] = input[2 * k + 1];
    }
}

fn put_together(i: &[f32], q: &[f32], output: &mut [f32])
    requires { (length output.old ≡ length i.now + length i.now) × (length q.now ≡ length i.now) }
    ensures { output.new ≡ flat (zip i.now q.now) }
{
    for k in 0..i.len() {
        output[2 * k] = i[k];
        output[2 * k + 1] = q[k];
    }
}
