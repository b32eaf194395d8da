// Reads chunks from standard input, and names the symbols of each, or tells which number it is refused with.
#![tactic(auto)]

mod answer;
mod print;

use answer::answer;
use documents::answers::answer_input;
use std::io;

fn main(rt: HostRuntime) -> io::Result<()> {
    answer_input(rt.alloc(), &mut rt.stdin(), &mut rt.stdout(), answer)
}
