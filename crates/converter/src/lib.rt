// The dongle's bytes as f32, plain and with the spectrum inverted.
//
// Document 01, "The stages": (s - 127.5) / 127.5, each operation rounded once; inverted negates Q before
// dividing. `specs/Convert.antt` has the definitions, `specs/Cases.antt` the marked cases 1 and 2. More
// than 262,144 bytes is LIMIT; an odd length, or a target of another length, is LENGTH. Refused, nothing
// is written. No public function here has a `requires`.
#![tactic(auto)]

ghost use Rattle.std.specs.Prelude.{◌≡◌, ◌%◌, length};
ghost use Rattle.stage.specs.Numbers.{number_of};
ghost use Rattle.converter.specs.Convert.{divided_by, samples, in_pairs, inverted, refusal_of, converted};

use stage::Refusal;
use std::simd::Simd;

const MIDDLE: f32 = 127.5;

// Writes every byte's value to the same place of `dst`. Answers the number of the refusal, 0 for none.
// Stays: C gets the number (`tl_convert`), and the clause speaks of it, so this call and the next answer no Result.
pub fn convert(src: &[u8], dst: &mut [f32]) -> u32
    ensures { (result, dst.new) ≡ converted samples src.now dst.old }
{
    convert_by(src, dst, MIDDLE)
}

// The same with every second value, Q, negated. Answers the number of the refusal, 0 for none.
pub fn convert_inverted(src: &[u8], dst: &mut [f32]) -> u32
    ensures { (result, dst.new) ≡ converted inverted src.now dst.old }
{
    convert_by(src, dst, -MIDDLE)
}

// Either of them: each byte's distance from the middle is divided by it, and Q's by `q_by`.
fn convert_by(src: &[u8], dst: &mut [f32], q_by: f32) -> u32
    ensures { (result, dst.new) ≡ converted (in_pairs (divided_by q_by)) src.now dst.old }
{
    if let Err(refusal) = demands(src.len(), dst.len()) {
        return u32::from(refusal);
    }
    fill(src, dst, q_by);
    stage::NONE
}

// The demands on a source of n bytes and a target of m floats.
fn demands(n: usize, m: usize) -> Result<(), Refusal>
    ensures { number_of result ≡ refusal_of n m }
{
    stage::demands(
        true,
        true,
        stage::within(n),
        stage::even(n) & (n == m),
        true,
    )
}

// Sixteen bytes side by side, and then the last pairs one by one.
fn fill(src: &[u8], dst: &mut [f32], q_by: f32)
    requires { (length dst.old ≡ length src.now) × (length src.now % 2 ≡ 0) }
    ensures { dst.new ≡ in_pairs (divided_by q_by) src.now }
{
    let middle: Simd<f32, 16> = Simd::splat(MIDDLE);
    let by: Simd<f32, 16> = Simd::from_array([
        MIDDLE, q_by, MIDDLE, q_by, MIDDLE, q_by, MIDDLE, q_by, MIDDLE, q_by, MIDDLE, q_by, MIDDLE,
        q_by, MIDDLE, q_by,
    ]);
    let blocks = src.len() / 16;
    for k in 0..blocks {
        let bytes: Simd<u8, 16> = Simd::from_slice(&src[16 * k..]);
        let values = (bytes.cast::<f32>() - middle) / by;
        values.copy_to_slice(&mut dst[16 * k..]);
    }
    for k in 8 * blocks..src.len() / 2 {
        dst[2 * k] = value(src[2 * k], MIDDLE);
        dst[2 * k + 1] = value(src[2 * k + 1], q_by);
    }
}

// A byte's distance from the middle, divided.
fn value(s: u8, by: f32) -> f32
    ensures { result ≡ divided_by by s }
{
    (s as f32 - MIDDLE) / by
}
