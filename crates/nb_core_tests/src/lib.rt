//! Nothing but tests: of `nb_core`, and of what stands right on it, the chain, the counter and the
//! lines of the programs. In their crates the gate would prove these once more for their tests.
#![tactic(auto)]

#[cfg(test)]
mod tests;
