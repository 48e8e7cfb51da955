// The FM demodulator's rules, and what each call demands.
ghost use Rattle.std.specs.Prelude.{◌≡◌};
ghost use Rattle.stage.specs.Into.{number_into};
ghost use Rattle.stage.specs.Numbers.{number_of};
ghost use Rattle.fm.specs.State.{alpha_of, setting_met, state_met, deemphasis_no};
ghost use Rattle.fm.specs.Process.{fm_stage};

use crate::FmDemodulator;
use stage::Refusal;

// What makes a de-emphasis: the rate of the samples, in Hz, and a time in seconds.
#[derive(Clone, Copy)]
pub struct Deemphasis {
    pub rate: f32,
    pub tau: f32,
}

#[tactic(auto, unfolding(crate::specs::State::alpha_of))]
impl Deemphasis {
    // Its weight, dt / (dt + tau) with dt = 1 / rate.
    pub fn alpha(self) -> f32
        ensures { result ≡ alpha_of self.rate self.tau }
    {
        let dt = 1.0 / self.rate;
        dt / (dt + self.tau)
    }
}

impl FmDemodulator {
    // Whether alpha lies from 0 to 1.
    fn setting(self) -> bool
        ensures { result ≡ setting_met self }
    {
        stage::in_unit(self.deemph_alpha)
    }

    // Whether what is stored is finite.
    fn state(self) -> bool
        ensures { result ≡ state_met self }
    {
        stage::both_finite(self.last_phase, self.deemph_state)
    }

    // Whether it may take this de-emphasis.
    #[tactic(auto, unfolding(crate::specs::State::deemphasis_no))]
    pub(crate) fn smoothing(self, by: Deemphasis) -> Result<(), Refusal>
        ensures { number_of result ≡ deemphasis_no self by.rate by.tau }
    {
        let given = stage::positive(by.rate) & stage::not_negative(by.tau);
        let new = stage::in_unit(by.alpha());
        stage::demands(self.setting() & given & new, self.state(), true, true, true)
    }

    // Whether it may demodulate `n` samples into `room` places.
    pub(crate) fn processing(self, n: usize, room: usize) -> Result<(), Refusal>
        ensures { number_of result ≡ number_into fm_stage self n room }
    {
        stage::demands(
            self.setting(),
            self.state(),
            stage::within(n),
            stage::even(n),
            n / 2 <= room,
        )
    }
}
