// The structs of the C interface about GDB traces: an answer is the refusal 0 and the values, or the refusal's number and zeros.
#![tactic(auto)]

pub mod edits; // edits.rt: selections, and the answers of cut, join and pairs
pub mod questions; // questions.rt: answers about a GDB trace
