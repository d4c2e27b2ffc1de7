// The C interface: each public question and edit as an exported function. include/tufakpeni.h declares the same functions and structs.
// An answer is a struct: the refusal 0 and the values, or the refusal's number and zeros.
#![tactic(auto)]

pub mod dat; // dat.rt: questions about a trace.dat file
pub mod edits; // edits.rt: cut, join and pairs
pub mod interface; // interface.rt: the number of this interface
pub mod questions; // questions.rt: questions about a GDB trace
