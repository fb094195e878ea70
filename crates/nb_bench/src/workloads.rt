//! What is measured.

use crate::keys::KEY_COUNT;

/// What the threads do.
#[derive(Clone, Copy)]
pub(crate) enum Workload {
    /// `A`: gets.
    Gets,
    /// `B`: mostly gets.
    Reads,
    /// `C`: half gets, half writes.
    Changes,
    /// `D`: puts that make the map grow.
    Growth,
    /// `E`: puts at one key.
    OneKey,
    /// `F`: a map with room for many keys is made, filled and read.
    Fill,
    /// `G`: keys come and go.
    Churn,
    /// `kinds`: calls of one kind after another, by one thread.
    Kinds,
}

impl Workload {
    /// All of them.
    const ALL: [Workload; 8] = [
        Workload::Gets,
        Workload::Reads,
        Workload::Changes,
        Workload::Growth,
        Workload::OneKey,
        Workload::Fill,
        Workload::Churn,
        Workload::Kinds,
    ];

    /// The workload of a name.
    pub(crate) fn named(name: &str) -> Option<Workload> {
        Workload::ALL.into_iter().find(|it| it.name() == name)
    }

    /// Its name on the command line, and in what is printed.
    pub(crate) fn name(self) -> &'static str {
        match self {
            Workload::Gets => "A",
            Workload::Reads => "B",
            Workload::Changes => "C",
            Workload::Growth => "D",
            Workload::OneKey => "E",
            Workload::Fill => "F",
            Workload::Churn => "G",
            Workload::Kinds => "kinds",
        }
    }

    /// How many keys there are, where the options ask for so many, if they do.
    pub(crate) fn keys(self, live: Option<u32>) -> u32 {
        match self {
            Workload::Kinds => KEY_COUNT,
            Workload::Growth => live.unwrap_or(32_768),
            Workload::Fill => live.unwrap_or(1_000_000),
            _ => live.unwrap_or(KEY_COUNT),
        }
    }

    /// The tables that it runs on, where the options name none.
    pub(crate) fn plan(self) -> Plan {
        match self {
            Workload::Growth | Workload::Fill | Workload::Churn => Plan::ByKeys,
            _ => Plan::OneTable,
        }
    }
}

/// Which tables a map has, where the options name none.
#[derive(Clone, Copy)]
pub(crate) enum Plan {
    /// One table, of twice as many slots as there are keys.
    OneTable,
    /// The tables of a shape for so many keys.
    ByKeys,
}

/// Of a hundred calls that are drawn, how many are gets and how many puts. The others are removals.
#[derive(Clone, Copy)]
pub(crate) struct Mix {
    pub(crate) gets: u64,
    pub(crate) puts: u64,
}
