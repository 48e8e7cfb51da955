// The angle of each pair. It looks at the pair alone, so several pairs can be worked side by side: four at a time, and
// then one by one.
ghost use Rattle.std.specs.Prelude.{◌≡◌, map, ◌+◌, ◌*◌, ◌≤◌, length};
ghost use Rattle.angle.specs.Lanes.{lane, Holds};
ghost use Rattle.stage.specs.Layout.{pairs};
ghost use Rattle.fm.specs.Step.{angle_of};
ghost use Rattle.fm.specs.Angles.{angle_at};

// `output` has a place for each pair.
pub(crate) fn angles(input: &[f32], output: &mut [f32])
    requires { length input.now ≡ length output.old + length output.old }
    ensures { output.new ≡ map angle_of (pairs input.now) }
{
    let done = fours(input, output);
    for k in done..output.len() {
        output[k] = angle::single::arctangent_f32(input[2 * k + 1], input[2 * k]);
    }
}

// As many angles as there are whole fours; how many that are.
fn fours(input: &[f32], output: &mut [f32]) -> usize
    requires { length input.now ≡ length output.old + length output.old }
    ensures { (result ≤ length output.new) × Holds (angle_at input.now) output.new result }
{
    let n = output.len() / 4;
    for g in 0..n {
        four(input, output, 4 * g);
    }
    4 * n
}

// The angles of four pairs, from pair k on.
fn four(input: &[f32], output: &mut [f32], k: usize)
    requires lengths { length input.now ≡ length output.old + length output.old }
    requires room { k + 4 ≤ length output.old }
    requires before { Holds (angle_at input.now) output.old k }
    ensures { Holds (angle_at input.now) output.new (k + 4) }
{
    let i = every_second(input, 2 * k);
    let q = every_second(input, 2 * k + 1);
    let a = angle::lanes::arctangents_f32(q, i);
    output[k..k + 4].copy_from_slice(&a);
}

// Four samples, from place `at` on: of pairs that lie interleaved, one half.
fn every_second(input: &[f32], at: usize) -> [f32; 4]
    requires { at + 7 ≤ length input.now }
    ensures { Holds (λ l. lane input.now (at + 2 * l)) result 4 }
{
    std::array::from_fn(|l| input[at + 2 * l])
}
