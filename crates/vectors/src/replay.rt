// A case run: its slices are filled from the file and lent to the call, and all is held to what the file tells.
use crate::calls::Call;
use crate::case::Case;
use crate::lent::FIRST;
use std::alloc::{AllocError, Global};

pub fn agrees(alloc: Global, case: &Case) -> Result<bool, AllocError> {
    let call = Call::of(case.line, case.is_lent);
    // A conversion's source is lent as bytes, to be read alone, and what stands past its samples is not looked at.
    let is_conversion = matches!(call, Call::Conversion(_));
    let mut lent = case
        .slices
        .floats(alloc, if is_conversion { 0 } else { FIRST })?;
    let answer = call.run(alloc, case, &mut lent)?;
    let slices_agree = if is_conversion {
        case.slices.second.agrees(lent.second.as_slice())
    } else {
        case.slices.agree(&lent)
    };
    Ok(case.answer == Some(answer) && slices_agree)
}
