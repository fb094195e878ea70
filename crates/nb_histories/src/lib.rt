//! Nothing but examples: worked histories of the shared map that are legal, and events that wrong
//! code would make, which may not follow. They show that the definitions of `nb_core` say what was
//! meant. Nobody has to believe them, and no other crate cites them.
#![tactic(auto)]

pub mod examples;
pub mod refusals;
