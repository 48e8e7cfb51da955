// The whole part of an f32, as Rust's `as usize` has it.
ghost use Rattle.std.specs.Prelude.{◌≡◌};
ghost use Rattle.std.specs.Float.Ieee.{to_unsigned};

// Toward zero: 0 for a NaN and for what lies below 1, and the largest usize from 2^64 on.
pub fn whole(x: f32) -> usize
    ensures { result ≡ to_unsigned 64 x }
{
    if x < 18446744073709551616.0 {
        if x > -1.0 {
            return std::num::truncating_f32_to_u64(x) as usize;
        }
        return 0;
    }
    if x != x {
        return 0;
    }
    0xffff_ffff_ffff_ffff
}
