// Small questions about a float, at either width: is it finite, how large is it, is its sign bit set.
ghost use Rattle.std.specs.Prelude.{◌≡◌, Float};
ghost use Rattle.std.specs.Float.Ieee.Scale.{finite};
ghost use Rattle.number.specs.Kinds.{absolute, negative};

// A float of either width. `value` is the number that it stands for.
pub trait Real: Copy {
    ghost value: { Self → Float };

    // Neither NaN nor an infinity.
    fn finite(self) -> bool
        ensures { result ≡ finite (value self) };

    // The number without its sign, that of a zero too; NaN for NaN. As Rust's `abs`.
    fn magnitude(self) -> Self
        ensures { value result ≡ absolute (value self) };

    // Whether the sign bit is set, as it is in -0.0; false for NaN, which counts as having none.
    fn negative(self) -> bool
        ensures { result ≡ negative (value self) };

    // The same number as an f64, which holds each of either width.
    fn wide(self) -> f64
        ensures { result ≡ value self };
}

// Stays: `finite` compares, as document 01 has it; std's `is_finite` subtracts, and a loop over it is a quarter slower.
// Stays: `magnitude` clears a bit: document 01 has `abs` worked out from the bits ("What must change shape").
#[tactic(auto, using(crate::proofs::kinds::Tests::laws))]
impl Real for f32 {
    ghost value = { λ x. x };

    fn finite(self) -> bool {
        (f32::NEG_INFINITY < self) & (self < f32::INFINITY)
    }

    fn magnitude(self) -> f32 {
        if self != self {
            return self;
        }
        f32::from_bits(self.to_bits() % 0x8000_0000)
    }

    fn negative(self) -> bool {
        if self != self {
            return false;
        }
        f32::is_sign_negative(self)
    }

    fn wide(self) -> f64 {
        f64::from(self)
    }
}

#[tactic(auto, using(crate::proofs::kinds::Tests::laws))]
impl Real for f64 {
    ghost value = { λ x. x };

    fn finite(self) -> bool {
        (f64::NEG_INFINITY < self) & (self < f64::INFINITY)
    }

    fn magnitude(self) -> f64 {
        if self != self {
            return self;
        }
        f64::from_bits(self.to_bits() % 0x8000_0000_0000_0000)
    }

    fn negative(self) -> bool {
        if self != self {
            return false;
        }
        f64::is_sign_negative(self)
    }

    fn wide(self) -> f64 {
        self
    }
}
