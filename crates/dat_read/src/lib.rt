// What a header's summary holds, and the pieces that a header is made of.
#![tactic(auto)]

pub mod pieces;
pub mod summary;
