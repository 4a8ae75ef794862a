// What is claimed of n boards on one cable, each with its own line and nothing else: together they do what the table's run does. The functions of
// `claims` do nothing: their clauses are the claims.
#![tactic(auto)]

pub mod claims;
