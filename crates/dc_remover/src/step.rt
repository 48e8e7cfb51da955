// One step of the DC remover: the mean with the new sample in it, and the sample less that mean.
ghost use Rattle.std.specs.Prelude.{◌≡◌};
ghost use Rattle.dc_remover.specs.Step.{mono_out, mono_after, mono_answer, pair_out, pair_after, pair_answer};

use crate::DcRemover;
use stage::Feedback;

impl DcRemover {
    // What a mono sample puts out and the state after it, if it is kept.
    pub(crate) fn mono_kept(self, x: f32) -> (f32, DcRemover)
        ensures { result ≡ (mono_out self x, mono_after self x) }
    {
        let avg_i = stage::blend(self.alpha, self.avg_i, x);
        let out = x - avg_i;
        (out, DcRemover { avg_i, ..self })
    }

    // The same of a pair, I and Q.
    pub(crate) fn pair_kept(self, x: (f32, f32)) -> ((f32, f32), DcRemover)
        ensures { result ≡ (pair_out self x, pair_after self x) }
    {
        let avg_i = stage::blend(self.alpha, self.avg_i, x.0);
        let avg_q = stage::blend(self.alpha, self.avg_q, x.1);
        let out = (x.0 - avg_i, x.1 - avg_q);
        (
            out,
            DcRemover {
                avg_i,
                avg_q,
                ..self
            },
        )
    }
}

// The step of `process_mono`.
#[tactic(auto, unfolding(crate::specs::Step::mono_answer))]
impl Feedback<f32, f32> for DcRemover {
    ghost answer = { mono_answer };

    fn step(self, x: f32) -> Option<(f32, DcRemover)> {
        let (out, after) = self.mono_kept(x);
        stage::both_finite(out, after.avg_i).then_some((out, after))
    }
}

// The step of `process` and `process_split`: I and Q are one pair.
#[tactic(auto, unfolding(crate::specs::Step::pair_answer))]
impl Feedback<(f32, f32), (f32, f32)> for DcRemover {
    ghost answer = { pair_answer };

    fn step(self, x: (f32, f32)) -> Option<((f32, f32), DcRemover)> {
        let (out, after) = self.pair_kept(x);
        let kept = stage::both_finite(out.0, out.1) & stage::both_finite(after.avg_i, after.avg_q);
        kept.then_some((out, after))
    }
}
