//! What C calls. Each export does what the map's handle does, and says so of what C has of it; what a
//! code means, `specs/Codes.antt` says.

mod calls;
mod cores;
mod ended;
mod handles;
mod library;
mod listing;
mod trying;
mod walks;
mod whole;
