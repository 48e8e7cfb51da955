// The filters, for C.
ghost use Rattle.std.specs.Prelude.{◌≡◌};
ghost use Rattle.lowpass.specs.Lowpass.{designed};
ghost use Rattle.decimator.specs.Making.{made, made_with_factor};
ghost use Rattle.decimator.specs.Process.{processed};
ghost use Rattle.decimator.specs.Settling.{cleared, retuned};

use decimator::{Decimated, Decimator};

#[unsafe(no_mangle)]
pub extern "C" fn tl_design_lowpass(taps: &mut [f32], cutoff: f32) -> u32
    ensures { (result, taps.new) ≡ designed taps.old cutoff }
{
    threshlantern::filters::tl_design_lowpass(taps, cutoff)
}

#[unsafe(no_mangle)]
pub extern "C" fn tl_decimator_new(
    factor: usize,
    cutoff: f32,
    taps: &mut [f32],
    history: &mut [f32],
) -> Decimated
    ensures { (result, taps.new, history.new) ≡ made factor cutoff taps.old history.old }
{
    threshlantern::filters::tl_decimator_new(factor, cutoff, taps, history)
}

#[unsafe(no_mangle)]
pub extern "C" fn tl_decimator_with_factor(
    factor: usize,
    taps: &mut [f32],
    history: &mut [f32],
) -> Decimated
    ensures { (result, taps.new, history.new) ≡ made_with_factor factor taps.old history.old }
{
    threshlantern::filters::tl_decimator_with_factor(factor, taps, history)
}

#[unsafe(no_mangle)]
pub extern "C" fn tl_decimator_process_into(
    state: Decimator,
    taps: &[f32],
    history: &mut [f32],
    input: &[f32],
    output: &mut [f32],
) -> Decimated
    ensures { (result, history.new, output.new) ≡ processed state taps.now history.old input.now output.old }
{
    threshlantern::filters::tl_decimator_process_into(state, taps, history, input, output)
}

#[unsafe(no_mangle)]
pub extern "C" fn tl_decimator_reset(
    state: Decimator,
    taps: &[f32],
    history: &mut [f32],
) -> Decimated
    ensures { (result, history.new) ≡ cleared state taps.now history.old }
{
    threshlantern::filters::tl_decimator_reset(state, taps, history)
}

#[unsafe(no_mangle)]
pub extern "C" fn tl_decimator_update_cutoff(
    state: Decimator,
    cutoff: f32,
    taps: &mut [f32],
    history: &[f32],
) -> Decimated
    ensures { (result, taps.new) ≡ retuned state cutoff taps.old history.now }
{
    threshlantern::filters::tl_decimator_update_cutoff(state, cutoff, taps, history)
}
