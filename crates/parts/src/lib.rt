// The parts of a state that its steps change.
#![tactic(auto)]

use steps::{Place, Version};

// Stores are arrays of versions and of values, as document 01 has them. Steps are answered on any numbers and flags, so a
// flag stands beside its values and none of these is a narrower type; a step changes one array at a time. Sites and
// transactions stay numbers, since a type of each would be opened at each cell.
#[derive(Clone, Copy)]
pub struct Parts {
    // Of site s and key k, at s * 64 + k: the replica's version and value.
    pub versions: [Version; 1024],
    pub values: [u32; 1024],
    // Of transaction t and its i-th read, at t * 8 + i: whether it was recorded, and the version and value that it returned.
    pub recorded: [bool; 1024],
    pub readversions: [Version; 1024],
    pub readvalues: [u32; 1024],
    // 0 for none, as document 01 lists it.
    pub places: [Place; 128],
    // Of transaction t and site s, at t * 16 + s.
    pub delivered: [bool; 2048],
    // 0 open, 1 committed, 2 aborted.
    pub closed: [u8; 2048],
    // The vote: 0 none, 1 yes, 2 or more no.
    pub cast: [u8; 2048],
    // The other sites whose votes were carried here.
    pub carried: [u16; 2048],
}
