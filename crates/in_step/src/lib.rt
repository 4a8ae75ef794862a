// What is claimed of n boards on a cable that loses, doubles and delays frames, where a board acts on the bus master's numbered entries alone:
// whatever happens, its line is that of the master's table after the entries in force at it. The functions of `claims` do nothing: their clauses
// are the claims.
#![tactic(auto)]

pub mod claims;
