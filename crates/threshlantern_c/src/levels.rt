// The DC remover and the two gain controls, for C.
ghost use Rattle.std.specs.Prelude.{◌≡◌};
ghost use Rattle.dc_remover.specs.State as dc-state;
ghost use Rattle.dc_remover.specs.Process as dc-process;
ghost use Rattle.agc.specs.State as agc-state;
ghost use Rattle.agc.specs.Process as agc-process;
ghost use Rattle.audio_agc.specs.Made as audio-made;
ghost use Rattle.audio_agc.specs.Process as audio-process;

use agc::{Agc, AgcDone};
use audio_agc::{AudioAgc, AudioAgcDone};
use dc_remover::{DcRemover, DcRemoverDone};

#[unsafe(no_mangle)]
pub extern "C" fn tl_dc_remover_new(alpha: f32) -> DcRemoverDone
    ensures { result ≡ dc-state.made alpha }
{
    threshlantern::levels::tl_dc_remover_new(alpha)
}

#[unsafe(no_mangle)]
pub extern "C" fn tl_dc_remover_process(state: DcRemover, data: &mut [f32]) -> DcRemoverDone
    ensures { dc-process.given result «data».new ≡ dc-process.process state «data».old }
{
    threshlantern::levels::tl_dc_remover_process(state, data)
}

#[unsafe(no_mangle)]
pub extern "C" fn tl_dc_remover_process_mono(state: DcRemover, data: &mut [f32]) -> DcRemoverDone
    ensures { dc-process.given result «data».new ≡ dc-process.process_mono state «data».old }
{
    threshlantern::levels::tl_dc_remover_process_mono(state, data)
}

#[unsafe(no_mangle)]
pub extern "C" fn tl_dc_remover_process_split(
    state: DcRemover,
    i: &mut [f32],
    q: &mut [f32],
) -> DcRemoverDone
    ensures { dc-process.given result (i.new, q.new) ≡ dc-process.process_split state (i.old, q.old) }
{
    threshlantern::levels::tl_dc_remover_process_split(state, i, q)
}

#[unsafe(no_mangle)]
pub extern "C" fn tl_agc_new(target: f32, attack: f32, decay: f32) -> AgcDone
    ensures { result ≡ agc-state.made target attack decay }
{
    threshlantern::levels::tl_agc_new(target, attack, decay)
}

#[unsafe(no_mangle)]
pub extern "C" fn tl_agc_process(state: Agc, data: &mut [f32]) -> AgcDone
    ensures { agc-process.given result «data».new ≡ agc-process.process state «data».old }
{
    threshlantern::levels::tl_agc_process(state, data)
}

#[unsafe(no_mangle)]
pub extern "C" fn tl_audio_agc_new(
    target: f32,
    attack: f32,
    decay: f32,
    hang_time_ms: f32,
    sample_rate: f32,
    min_magnitude: f32,
) -> AudioAgcDone
    ensures { result ≡ audio-made.made target attack decay hang_time_ms sample_rate min_magnitude }
{
    threshlantern::levels::tl_audio_agc_new(
        target,
        attack,
        decay,
        hang_time_ms,
        sample_rate,
        min_magnitude,
    )
}

#[unsafe(no_mangle)]
pub extern "C" fn tl_audio_agc_process(state: AudioAgc, data: &mut [f32]) -> AudioAgcDone
    ensures { audio-process.given result «data».new ≡ audio-process.process state «data».old }
{
    threshlantern::levels::tl_audio_agc_process(state, data)
}
