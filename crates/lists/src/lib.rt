// What all crates stand on: searches, sums, kept lists, repeated steps, lists written into a buffer; and the refusals, by name, number and words.
#![tactic(auto)]

pub mod bytes;
pub mod refusal;
