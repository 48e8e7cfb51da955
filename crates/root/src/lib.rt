// The square root of an f32.
//
// Document 01, "Numbers under the stages": IEEE 754, to the nearest and a tie to even; -0 gives -0,
// below zero NaN. `specs/Root.antt` has the definition. `specs/Nearest.antt` says without a method what
// IEEE 754 asks above zero, and `specs/EveryRoot.antt` what it asks of every float; `proofs/Told.antt` and
// `proofs/EveryRoot.antt` show that the definition does so. The marked cases 3 and 4 are worked out in
// `Cases.antt`. The root is worked out from the bits by whole numbers. No public function here has a
// `requires`.
#![tactic(auto)]

ghost use Rattle.std.specs.Prelude.{◌≡◌, ◌+◌, ◌*◌, ◌^◌, ◌<◌};
ghost use Rattle.std.specs.Float.{binary32};
ghost use Rattle.std.specs.Float.Ieee.{of_bits};
ghost use Rattle.root.specs.Root.{rooted, nearest_root};
ghost use Rattle.root.specs.Inside.{IsRoot, Scaled};

// The root of x, rounded once: x itself for a zero and for an infinity above, NaN for NaN and below zero.
pub fn sqrt(x: f32) -> f32
    ensures { result ≡ rooted binary32 x }
{
    if x != x {
        return 0.0 / 0.0;
    }
    let b = f32::to_bits(x);
    if b > 0x8000_0000 {
        return 0.0 / 0.0;
    }
    if b == 0x8000_0000 {
        return x;
    }
    if b >= 0x7f80_0000 {
        return x;
    }
    if b == 0 {
        return x;
    }
    f32::from_bits(root_bits(b))
}

// The pattern of the root of the positive finite f32 with the pattern b.
fn root_bits(b: u32) -> u32
    requires { (0 < b) × (b < 0x7f80_0000) }
    ensures { (result < 0x7f80_0000) × (of_bits binary32 result ≡ rooted binary32 (of_bits binary32 b)) }
{
    let field = b / 0x80_0000;
    let digits = b % 0x80_0000;
    if field == 0 {
        return root_parts(digits as u64, 0) as u32;
    }
    root_parts((digits + 0x80_0000) as u64, (field - 1) as u64) as u32
}

// The same for m * 2 ^ e of the smallest values. No root lies in the middle between two f32: what is
// left of n, which is m scaled, tells on which side of the middle the root is.
fn root_parts(m: u64, e: u64) -> u64
    requires { (0 < m) × (m < 2 ^ 24) × (e < 254) }
    ensures { (result < 0x7f80_0000) × (of_bits binary32 result ≡ nearest_root binary32 (m * 2 ^ (e + 149))) }
{
    let j = places(m, e);
    let n = m << j;
    let k = (e + 149 - j) / 2;
    let q = whole_root(n);
    if n - q * q > q {
        return k * 0x80_0000 + (q + 1);
    }
    k * 0x80_0000 + q
}

// How far m is shifted, so that it has 47 or 48 binary digits, its whole root has 24, and an even power
// of two is left.
fn places(m: u64, e: u64) -> u64
    requires { (0 < m) × (m < 2 ^ 24) × (e < 254) }
    ensures { Scaled m e result }
{
    let s = (u64::leading_zeros(m) as u64) - 17;
    s + (e + 149 - s) % 2
}

// The largest r with r * r at most n, one binary digit at a time.
fn whole_root(n: u64) -> u64
    requires { n < 2 ^ 48 }
    ensures { IsRoot n result }
{
    let mut r = 0;
    for d in (0..24u64).rev() {
        let t = r + (1 << d);
        if t * t <= n {
            r = t;
        }
    }
    r
}
