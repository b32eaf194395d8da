// Reads chunks with calls of a session on them from standard input, makes the calls, and prints what each answers.
#![tactic(auto)]

mod call;
mod document;
mod open;
mod print;
mod script;
mod tell;

use document::answer;
use documents::answers::answer_input;
use std::io;

fn main(rt: HostRuntime) -> io::Result<()> {
    answer_input(rt.alloc(), &mut rt.stdin(), &mut rt.stdout(), answer)
}
