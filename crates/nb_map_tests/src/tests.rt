//! Tests of the map by handles, of the set, of typed maps, and of the map without an end. Rows of
//! calls that C has too are in `languages/c/tests`.
mod bulk;
mod calls;
mod lasting;
mod long;
mod opening;
mod plain;
mod rows;
mod set;
mod threads;
mod updating;
mod walks;
