//! Nothing but tests: of what runs a script, where the program's words and bytes don't show it.
//! They are a crate of their own, since a crate with tests is proved twice.
#![tactic(auto)]

#[cfg(test)]
mod tests;
