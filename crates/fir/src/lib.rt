// What the filters share: sums of products over windows of a stream, and the history that windows reach back to.
//
// Document 01, "The stages", the bullets on the decimator and the Hilbert filter, and "What must change shape":
// taps and history are lent, and a window is read across history and input. `specs/Filter.antt` says what any
// filter gives over a block, `specs/Dot.antt` has the two filters of this crate and `specs/Into.antt` what its
// calls give; `specs/Cases.antt` has worked values. `proofs/Cut.antt` and `proofs/Damage.antt` hold for any filter.
//
// `filter_into` works by planes: samples are copied so that those of neighbouring outputs lie side by side, and
// then 32 outputs are summed at once, each in index order, so that each is to the bit what one sum after another
// gives. No public function here has a `requires`: a call tests lengths once and does nothing where they do not
// fit. Then it makes a `Work`, whose ghost fields hold what was tested, and the functions inside go on from there;
// they cite `specs/Written.antt` and `Planes.antt`.
#![tactic(auto)]

mod blocks;
mod counts;
mod dot;
mod gather;
mod history;
mod lanes;
mod odd;
mod plain;
mod planar;
mod planes;
mod run;
mod window;
mod work;

pub use counts::{count, next_phase};
pub use history::{clear, history_fits, keep};
pub use odd::filter_odd_into;
pub use run::filter_into;
