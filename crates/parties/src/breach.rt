use super::PartySet;

// A breach: when, and by whom.
#[derive(Clone, Copy, Debug, PartialEq, Eq)]
pub struct Breach {
    pub time: i64,
    pub parties: PartySet,
}
