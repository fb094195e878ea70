//! Nothing but tests: of writes in a core, and of the steps by which a key leaves it. They are a crate
//! of their own, since a crate with tests is proved twice.
#![tactic(auto)]

#[cfg(test)]
mod tests;
