// The three demands as theorems over whole lists of calls: no code lives here. specs/ holds the
// statements, proofs/ the proofs.
#![tactic(auto)]
