// The FM and AM demodulators, for C.
ghost use Rattle.std.specs.Prelude.{◌≡◌};
ghost use Rattle.fm.specs.State as fm-state;
ghost use Rattle.fm.specs.Process as fm-process;
ghost use Rattle.am.specs.State as am-state;
ghost use Rattle.am.specs.Process as am-process;

use am::{AmDemodulator, AmDone};
use fm::{FmDemodulator, FmDone};

#[unsafe(no_mangle)]
pub extern "C" fn tl_fm_new() -> FmDone
    ensures { result ≡ fm-state.fresh }
{
    threshlantern::demodulators::tl_fm_new()
}

#[unsafe(no_mangle)]
pub extern "C" fn tl_fm_with_deemphasis(state: FmDemodulator, sample_rate: f32, tau: f32) -> FmDone
    ensures { result ≡ fm-state.deemphasised state sample_rate tau }
{
    threshlantern::demodulators::tl_fm_with_deemphasis(state, sample_rate, tau)
}

#[unsafe(no_mangle)]
pub extern "C" fn tl_fm_process_into(
    state: FmDemodulator,
    input: &[f32],
    output: &mut [f32],
) -> FmDone
    ensures { fm-process.put result output.new ≡ fm-process.process_into state input.now output.old }
{
    threshlantern::demodulators::tl_fm_process_into(state, input, output)
}

#[unsafe(no_mangle)]
pub extern "C" fn tl_am_new() -> AmDone
    ensures { result ≡ am-state.fresh }
{
    threshlantern::demodulators::tl_am_new()
}

#[unsafe(no_mangle)]
pub extern "C" fn tl_am_process_into(
    state: AmDemodulator,
    input: &[f32],
    output: &mut [f32],
) -> AmDone
    ensures { am-process.put result output.new ≡ am-process.process_into state input.now output.old }
{
    threshlantern::demodulators::tl_am_process_into(state, input, output)
}
