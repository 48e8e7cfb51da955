// The narrowing for a loop with a feedback, whose samples cannot be worked side by side: on one whole
// number, with one sum and one shift where the result is a normal f32. The contract is that of
// `narrow::narrow`, which answers the rest.
ghost use Rattle.std.specs.Prelude.{◌≡◌, ◌%◌, ◌^◌, ◌<◌, ◌≤◌, not, T, from_bits};
ghost use Rattle.std.specs.Float.{binary32, binary64};
ghost use Rattle.std.specs.Float.Ieee.{nan_bits};
ghost use Rattle.std.specs.Float.Ieee.Nearest.{closest};
ghost use Rattle.number.specs.Narrow.{narrowed};

// The f32 nearest to x, a tie to the even one; as Rust's `as f32`.
// Stays: C has this method beside that of `narrow::narrow` (`tl_narrow_alone`), and each is the quicker one somewhere.
#[tactic(auto, using(crate::proofs::narrow::Through::laws))]
pub fn narrow(x: f64) -> f32
    ensures { result ≡ narrowed x }
{
    if x != x {
        return f32::NAN;
    }
    let b = x.to_bits();
    let m = b % 0x8000_0000_0000_0000;
    if m >= 0x3810_0000_0000_0000 {
        if m < 0x47ef_ffff_f000_0000 {
            return f32::from_bits(normal(b));
        }
    }
    crate::narrow::narrow(x)
}

// The pattern of the f32 nearest to the f64 with the pattern b, where that is a normal number: the field is
// 897 at least, and b is below the overflow. A carry goes into the field.
fn normal(b: u64) -> u32
    requires { (0x3810_0000_0000_0000 ≤ b % 0x8000_0000_0000_0000) × (b % 0x8000_0000_0000_0000 < 0x47ef_ffff_f000_0000) }
    ensures { T (not (nan_bits binary32 result)) × (from_bits binary32 result ≡ narrowed (from_bits binary64 b)) }
{
    let m = b % 0x8000_0000_0000_0000;
    (b / 0x8000_0000_0000_0000 * 0x8000_0000 + (rounded(m) - 0x1_c000_0000)) as u32
}

// m without its last 29 binary digits, to the nearest and a tie to the even one: just under a half is
// added, and the last place where what is kept is odd.
fn rounded(m: u64) -> u64
    requires { m < 2 ^ 63 }
    ensures { result ≡ closest m (2 ^ 29) }
{
    (m + 0x0fff_ffff + m / 0x2000_0000 % 2) / 0x2000_0000
}
