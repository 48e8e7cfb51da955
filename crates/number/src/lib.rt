// Float bits: finite or not, magnitude, sign, f32 to f64, f64 to f32, and the whole part.
//
// Document 01, "Numbers under the stages": width changes are IEEE 754's, to the nearest and a tie to
// even; overflow gives an infinity, small results may be subnormal, zeros keep their sign, and all
// NaNs count as one value. `specs/Kinds.antt`, `specs/Narrow.antt` and `specs/Eight.antt` have the
// definitions, `specs/Nearest.antt` says without a method what IEEE 754 asks of rounding,
// `proofs/Told.antt` shows that both width changes do so, and `specs/Cases.antt` has worked values. Laws
// that the crates above cite are in `proofs/Nearest.antt`, `Pack.antt`, `Grid.antt`, `Rounded.antt`,
// `Dyadic.antt`, `Adding.antt`, `Splitting.antt`, `Eights.antt`, `Nan.antt` and `Casts.antt`. No public
// function here has a `requires`.
#![tactic(auto)]

pub mod alone;
pub mod eight;
pub mod kinds;
pub mod narrow;
pub mod whole;
pub mod widen;
