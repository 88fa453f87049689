// What the reader must give, computed by the checker: no code lives here. specs/ holds patterns
// with their answers, proofs/ the theorems that compute them, and the rule of the whole table of
// class names.
#![tactic(auto)]
