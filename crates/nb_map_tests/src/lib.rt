//! Nothing but tests: the map's calls, its walks, and threads on it, by handles; and the set, typed
//! maps and the map without an end, which stand on it. They are one crate of their own, since a crate
//! with tests is proved twice, and what each test crate asks of the libraries is proved once here.
#![tactic(auto)]

#[cfg(test)]
mod tests;
