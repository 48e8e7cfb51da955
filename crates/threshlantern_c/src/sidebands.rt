// The Hilbert filter and the SSB demodulator, for C.
ghost use Rattle.std.specs.Prelude.{◌≡◌};
ghost use Rattle.hilbert.specs.Making.{made};
ghost use Rattle.hilbert.specs.Process.{processed};
ghost use Rattle.ssb.specs.Making as ssbMaking;
ghost use Rattle.ssb.specs.Process as ssbProcess;

use hilbert::{HilbertDone, HilbertFilter};
use ssb::{SsbDemodulator, SsbDone};

#[unsafe(no_mangle)]
pub extern "C" fn tl_hilbert_new(taps: &mut [f32], history: &mut [f32]) -> HilbertDone
    ensures { (result, taps.new, history.new) ≡ made taps.old history.old }
{
    threshlantern::sidebands::tl_hilbert_new(taps, history)
}

#[unsafe(no_mangle)]
pub extern "C" fn tl_hilbert_process_into(
    taps: &[f32],
    history: &mut [f32],
    input: &[f32],
    output: &mut [f32],
) -> HilbertDone
    ensures { (result, history.new, output.new) ≡ processed taps.now history.old input.now output.old }
{
    threshlantern::sidebands::tl_hilbert_process_into(taps, history, input, output)
}

#[unsafe(no_mangle)]
pub extern "C" fn tl_ssb_new(
    is_usb: bool,
    taps: &mut [f32],
    q_history: &mut [f32],
    i_history: &mut [f32],
) -> SsbDone
    ensures { (result, taps.new, q_history.new, i_history.new) ≡ ssbMaking.made is_usb taps.old q_history.old i_history.old }
{
    threshlantern::sidebands::tl_ssb_new(is_usb, taps, q_history, i_history)
}

#[unsafe(no_mangle)]
pub extern "C" fn tl_ssb_process_into(
    state: SsbDemodulator,
    taps: &[f32],
    q_history: &mut [f32],
    i_history: &mut [f32],
    input: &[f32],
    output: &mut [f32],
) -> SsbDone
    ensures { (result, q_history.new, i_history.new, output.new) ≡ ssbProcess.processed state taps.now q_history.old i_history.old input.now output.old }
{
    threshlantern::sidebands::tl_ssb_process_into(state, taps, q_history, i_history, input, output)
}
