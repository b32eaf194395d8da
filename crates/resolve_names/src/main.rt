// Reads what is to be named from standard input, and prints the names, the refusals and the records.
#![tactic(auto)]

mod command;
mod document;
mod print;

use document::answer;
use documents::answers::answer_input;

fn main(rt: HostRuntime) -> anyhow::Result<()> {
    answer_input(rt.alloc(), &mut rt.stdin(), &mut rt.stdout(), answer)
}
