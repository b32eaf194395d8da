// Tests of a chunk's limits, which need more rows than a document is written with by hand.
#![tactic(auto)]

#[cfg(test)]
mod tests;
