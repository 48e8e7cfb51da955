// A decimator made: its taps designed, its history cleared.
ghost use Rattle.std.specs.Prelude.{◌≡◌, true, ◌+◌, ◌*◌, ◌≤◌, eqb, length};
ghost use Rattle.lowpass.specs.Rules.{taps_allowed, cutoff_allowed};
ghost use Rattle.decimator.specs.Making.{cutoff_for, begun, made, made_with_factor};

use crate::{Decimated, Decimator};

impl Decimator {
    // Writes the lowpass filter's taps for this cutoff, as many as the slice has places, and clears the history.
    // Refused are SETTING for factor, cutoff or number of taps, and LENGTH for a history that is not taps less
    // one; the answer is then a record of zeros, and nothing is written.
    pub fn new(factor: usize, cutoff: f32, taps: &mut [f32], history: &mut [f32]) -> Decimated
        ensures { (result, taps.new, history.new) ≡ made factor cutoff taps.old history.old }
    {
        let demands = stage::demands(
            crate::rules::factor_allowed(factor)
                & lowpass::cutoff_allowed(cutoff)
                & lowpass::taps_allowed(taps.len()),
            true,
            true,
            fir::history_fits(taps, history),
            true,
        );
        if let Err(refusal) = demands {
            return Decimator::default().answer(u32::from(refusal), 0);
        }
        begin(factor, cutoff, taps, history)
    }

    // The same at a cutoff of 0.75 / factor, which is always allowed. LENGTH is also given where there are not
    // 12 x factor + 1 taps.
    pub fn with_factor(factor: usize, taps: &mut [f32], history: &mut [f32]) -> Decimated
        ensures { (result, taps.new, history.new) ≡ made_with_factor factor taps.old history.old }
    {
        let demands = stage::demands(
            crate::rules::factor_allowed(factor) & lowpass::taps_allowed(taps.len()),
            true,
            true,
            fir::history_fits(taps, history) & twelvefold(factor, taps.len()),
            true,
        );
        if let Err(refusal) = demands {
            return Decimator::default().answer(u32::from(refusal), 0);
        }
        begin(factor, cutoff_for(factor), taps, history)
    }
}

// The taps and the zeros, once nothing is refused.
fn begin(factor: usize, cutoff: f32, taps: &mut [f32], history: &mut [f32]) -> Decimated
    requires { (taps_allowed (length taps.old) ≡ true) × (cutoff_allowed cutoff ≡ true) }
    ensures { (result, taps.new, history.new) ≡ begun factor cutoff taps.old history.old }
{
    lowpass::design_lowpass(taps, cutoff);
    fir::clear(history);
    let fresh = Decimator { factor, phase: 0 };
    fresh.answer(stage::NONE, 0)
}

// Whether there are 12 x factor + 1 taps, asked so that no product can overflow.
fn twelvefold(factor: usize, taps: usize) -> bool
    ensures { result ≡ eqb taps (12 * factor + 1) }
{
    (taps % 12 == 1) & (taps / 12 == factor)
}

// One division: wider than the band that is left, so that the edges of an FM signal are not clipped.
#[tactic(auto, unfolding(crate::specs::Making::cutoff_for))]
fn cutoff_for(factor: usize) -> f32
    requires { factor ≤ 64 }
    ensures { result ≡ cutoff_for factor }
{
    0.75 / factor as f32
}
