// Four arctangents side by side, a lane for each. The steps of one wait for each other, and those of another can be
// done meanwhile. Each lane's steps are those of `arc::arctangent`, in three passes: each is short enough for the
// compiler to lay its lanes out in a row, and a loop over all of it is then worked several fours at a time.
ghost use Rattle.std.specs.Prelude.{◌≡◌, ◌<◌, length};
ghost use Rattle.number.specs.Narrow.{narrowed};
ghost use Rattle.angle.specs.Arc.{flat};
ghost use Rattle.angle.specs.Parts.{ratio, pointed};
ghost use Rattle.angle.specs.Lanes.{lane, Holds, arctans32};

use crate::arc::angle_to;
use crate::flat::{flat_angle, ratio_of};
use number::narrow::narrow;
use number::widen::widen;
use std::array::from_fn;

// The arctangent of (y, x) in each lane; NaN where either is NaN.
pub fn arctangents_f32(y: [f32; 4], x: [f32; 4]) -> [f32; 4]
    ensures { result ≡ arctans32 y x }
{
    angles(y, x, flat_angles(ratios(y, x)))
}

fn ratios(y: [f32; 4], x: [f32; 4]) -> [f64; 4]
    ensures { Holds (λ l. ratio (lane y l) (lane x l)) result 4 }
{
    from_fn(|l| ratio_of(widen(y[l]), widen(x[l])))
}

fn flat_angles(q: [f64; 4]) -> [f64; 4]
    ensures { Holds (λ l. flat (lane q l)) result 4 }
{
    from_fn(|l| flat_angle(q[l]))
}

// From the angles of the ratios to those of the points, narrowed.
fn angles(y: [f32; 4], x: [f32; 4], a: [f64; 4]) -> [f32; 4]
    ensures { (length result ≡ 4) × Holds (λ l. narrowed (pointed (lane y l) (lane x l) (lane a l))) result 4 }
{
    from_fn(|l| narrow(angle_to(widen(y[l]), widen(x[l]), a[l])))
}
