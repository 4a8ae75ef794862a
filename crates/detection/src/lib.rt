// What is claimed of lists of runs and drives (specs/), and its proof (proofs/). The claims are laws of the definitions `run` and `drive`, which are
// what plant::run::run and granter::drive::drive promise. The functions here do nothing: their clauses are the claims. What is claimed of one run or
// drive, wherever it stands in a list (specs/InList.antt), vcube_run and vcube_drive promise.
#![tactic(auto)]

pub mod claims;
