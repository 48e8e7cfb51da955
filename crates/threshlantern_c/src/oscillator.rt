// The oscillator, for C.
ghost use Rattle.std.specs.Prelude.{◌≡◌};
ghost use Rattle.nco.specs.Call.{made, retuned, mixed, cleared};

use nco::{Nco, NcoDone};

#[unsafe(no_mangle)]
pub extern "C" fn tl_nco_new(freq_hz: f64, sample_rate_hz: f64) -> NcoDone
    ensures { result ≡ made freq_hz sample_rate_hz }
{
    threshlantern::oscillator::tl_nco_new(freq_hz, sample_rate_hz)
}

#[unsafe(no_mangle)]
pub extern "C" fn tl_nco_set_freq(state: Nco, freq_hz: f64, sample_rate_hz: f64) -> NcoDone
    ensures { result ≡ retuned state freq_hz sample_rate_hz }
{
    threshlantern::oscillator::tl_nco_set_freq(state, freq_hz, sample_rate_hz)
}

#[unsafe(no_mangle)]
pub extern "C" fn tl_nco_mix(state: Nco, iq: &mut [f32]) -> NcoDone
    ensures { (result, iq.new) ≡ mixed state iq.old }
{
    threshlantern::oscillator::tl_nco_mix(state, iq)
}

#[unsafe(no_mangle)]
pub extern "C" fn tl_nco_reset(state: Nco) -> NcoDone
    ensures { result ≡ cleared state }
{
    threshlantern::oscillator::tl_nco_reset(state)
}
