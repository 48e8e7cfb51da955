// What a call of the demodulator works with, once its lengths are tested.
ghost use Rattle.std.specs.Prelude.{length};
ghost use Rattle.ssb.specs.Ready.{Ready};

// What a call works with: the sideband, the taps and the histories of Q and I.
#[derive(Drop)]
pub(crate) struct Lent<'t, 'h> {
    pub(crate) is_usb: bool,
    pub(crate) taps: &'t [f32],
    pub(crate) q_history: &'h mut [f32],
    pub(crate) i_history: &'h mut [f32],
    ghost ready: { Ready (length taps.now) (length q_history.now) (length i_history.now) },
}
