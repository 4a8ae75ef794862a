// The board's own half of the watch: what a board makes of its own line of n + 6 bytes, and of what the other boards send. It stands above `station`.
//
// The calls for callers are those of `calls`. No function of `calls` or `claims` has a `requires`; those of `claims` do nothing: their clauses are
// the claims of specs/Packed.antt and specs/Keeps.antt.
#![tactic(auto)]

mod board;
pub mod calls;
mod checks;
pub mod claims;
mod packed;
#[cfg(test)]
mod tests;
