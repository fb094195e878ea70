//! Nothing but a test: a catalog of lines of which a request for memory is refused. It is a crate of its
//! own, since a crate with tests is proved twice.
#![tactic(auto)]

#[cfg(test)]
mod tests;
