// What a session tells in every state.
use crate::call::TellCall;
use crate::print;
use renamer::renamer::Renamer;
use std::alloc::{AllocError, Global};

/// What a call answers that changes nothing. A session in repair tells what an open one does, so there is one function for both.
pub fn tell(
    heap: Global,
    renamer: &Renamer<'_>,
    call: TellCall,
    out: &mut Vec<u8>,
) -> Result<(), AllocError> {
    match call {
        TellCall::Printed(symbol) => print::printed(symbol, renamer.printed_name(symbol), out),
        TellCall::Names(places) => {
            let mut rows = print::name_rows(heap, places, renamer.named())?;
            let count = renamer.list(&mut rows);
            print::names(count, &rows, out)
        }
    }
}
