// The FM demodulator: from interleaved pairs to the change of their angle, smoothed by the de-emphasis.
//
// Document 01, "The stages" and "Struck samples": the angle is document 01's arctangent at f32, 2 x PI is
// taken off or on only where the difference is strictly beyond PI or -PI, and the output is divided by PI.
// `specs/Step.antt` has the definition of a step, `specs/State.antt` and `specs/Process.antt` what each call
// gives, `specs/Cases.antt` the marked cases 10 and 11. The angles are taken first, all of them, since they
// need no feedback (`angles.rt`). No public function here has a `requires`.
#![tactic(auto)]

mod angles;
mod rules;
mod step;

ghost use Rattle.std.specs.Prelude.{◌≡◌};
ghost use Rattle.fm.specs.State.{answered, fresh, deemphasised};
ghost use Rattle.fm.specs.Process.{put, followed, process_into};

use rules::Deemphasis;

#[repr(C)]
#[derive(Clone, Copy, Default)]
pub struct FmDemodulator {
    pub last_phase: f32,
    pub deemph_alpha: f32,
    pub deemph_state: f32,
}

// Stays: `tl_fm_process_into` gives it to C, so it keeps the refusal's number and takes no type parameter.
#[repr(C)]
#[derive(Clone, Copy)]
pub struct FmDone {
    pub refusal: u32,
    pub state: FmDemodulator,
    pub count: usize,
    pub struck: usize,
}

impl FmDemodulator {
    // A demodulator without de-emphasis, at angle 0. It is never refused.
    pub fn new() -> FmDone
        ensures { result ≡ fresh }
    {
        FmDemodulator {
            last_phase: 0.0,
            deemph_alpha: 1.0,
            deemph_state: 0.0,
        }
        .answer(stage::NONE, 0, 0)
    }

    // The same with a de-emphasis of `tau` seconds. SETTING: the alpha that there is outside 0 to 1, a rate that
    // is not finite and above 0, a tau that is not finite or below 0, an alpha that comes out outside 0 to 1;
    // STATE: a stored float that is not finite.
    #[tactic(auto, unfolding(crate::specs::State::deemphasised))]
    pub fn with_deemphasis(mut self, sample_rate: f32, tau: f32) -> FmDone
        ensures { result ≡ deemphasised self sample_rate tau }
    {
        let by = Deemphasis {
            rate: sample_rate,
            tau,
        };
        if let Err(refusal) = self.smoothing(by) {
            return self.answer(u32::from(refusal), 0, 0);
        }
        self.deemph_alpha = by.alpha();
        self.answer(stage::NONE, 0, 0)
    }

    // Demodulates the pairs of `input`, one output each from the start of `output`; the places behind stay. SETTING
    // for an alpha outside 0 to 1, STATE for a stored float that is not finite, LIMIT, LENGTH for an odd input,
    // ROOM for an output with fewer places than there are pairs.
    pub fn process_into(mut self, input: &[f32], output: &mut [f32]) -> FmDone
        ensures { put result output.new ≡ process_into self input.now output.old }
    {
        if let Err(refusal) = self.processing(input.len(), output.len()) {
            return self.answer(u32::from(refusal), 0, 0);
        }
        let run = &mut output[..input.len() / 2];
        angles::angles(input, run);
        self.follow(run)
    }

    // The feedback over the pairs' angles, whose places its outputs take.
    fn follow(mut self, run: &mut [f32]) -> FmDone
        ensures { put result run.new ≡ followed self run.old }
    {
        let ran = stage::run_mono(self, run);
        self = ran.state;
        self.answer(stage::NONE, run.len(), ran.struck)
    }

    fn answer(self, refusal: u32, count: usize, struck: usize) -> FmDone
        ensures { result ≡ answered refusal self count struck }
    {
        FmDone {
            refusal,
            state: self,
            count,
            struck,
        }
    }
}
