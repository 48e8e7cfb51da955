// An f64 to the nearest f32, as IEEE 754 has it: ties to even, overflow to an infinity, small results
// subnormal, signed zeros kept, NaN to NaN. A loop over it can be worked several samples at a time.
ghost use Rattle.std.specs.Prelude.{◌≡◌, ◌+◌, ◌-◌, ◌^◌, ◌<◌, ◌≤◌, Bool, not, ◌&&◌, T, if◌then◌else◌, ◌==◌, from_bits};
ghost use Rattle.std.specs.Float.{binary32, binary64};
ghost use Rattle.std.specs.Float.Ieee.{of_fields, nan_bits};
ghost use Rattle.number.specs.Narrow.{narrowed};

// The f32 nearest to x, a tie to the even one; as Rust's `as f32`.
#[tactic(auto, using(crate::proofs::narrow::Through::laws))]
pub fn narrow(x: f64) -> f32
    ensures { result ≡ narrowed x }
{
    if x != x {
        return f32::NAN;
    }
    f32::from_bits(narrow_bits(x.to_bits()))
}

// The pattern of the f32 nearest to the f64 with the pattern b.
fn narrow_bits(b: u64) -> u32
    requires { T (not (nan_bits binary64 b)) }
    ensures { T (not (nan_bits binary32 result)) × (from_bits binary32 result ≡ narrowed (from_bits binary64 b)) }
{
    let rest = b % 0x8000_0000_0000_0000;
    let sign = b / 0x8000_0000_0000_0000 * 0x8000_0000;
    (sign + magnitude(rest / 0x10_0000_0000_0000, b % 0x10_0000_0000_0000)) as u32
}

// The same without the sign, from the exponent's field and the digits. The f64 is rounded by adding a
// power of two and taking it off again: the sum has room for the f32's digits and no more, so the
// difference is an f32, and the cast loses nothing. The overflow is the only branch.
fn magnitude(field: u64, digits: u64) -> u64
    requires { (field < 2048) × (digits < 2 ^ 52) × T (not (field == 2047 && not (digits == 0))) }
    ensures { (result ≤ 0x7f80_0000)
        × ((s : Bool) → from_bits binary32 ((if s then 0x8000_0000 else 0) + result) ≡ narrowed (of_fields binary64 s field digits)) }
{
    let m = field * 0x10_0000_0000_0000 + digits;
    if m >= 0x47ef_ffff_f000_0000 {
        return 0x7f80_0000;
    }
    let c = f64::from_bits(place(field) * 0x10_0000_0000_0000);
    let t = (f64::from_bits(m) + c) - c;
    f32::to_bits(t as f32) as u64
}

// The exponent's field of what is added: 29 places above the f64's, and at least that for the f32's
// smallest value.
fn place(field: u64) -> u64
    requires { field < 1151 }
    ensures { result ≡ field - 897 + 926 }
{
    if field < 897 {
        return 926;
    }
    field + 29
}
