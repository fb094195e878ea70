//! The map for C: a static library of thin exports over handles. Its page for callers is
//! `languages/c/include/samvolip.h`.
#![tactic(auto)]

mod codes;
mod cores;
mod cursor;
mod ended_handle;
mod ended_map;
mod exports;
mod header;
mod lend;
mod life;
mod listing;
mod many;
mod map_shape;
mod occupancy;
mod parts;
mod seat_handle;
mod stretch;
