// Boards on a cable, each with its own line and nothing else, detect the boards that are dead as the table's runs do. The functions of `claims` do
// nothing: their clauses are the claims.
#![tactic(auto)]

pub mod claims;
