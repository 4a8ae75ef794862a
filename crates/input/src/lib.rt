// The reading of an input of the run program, for it and for C: lines, the size, the entries; and what is wrong in the first line that cannot be
// read. The call is reading::parse.
#![tactic(auto)]

pub mod fault;
pub mod reading;
