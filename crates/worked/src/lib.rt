// The worked cases of the rules, computed by the checker, and one instance of demand 3: no code
// lives here. specs/ holds the rules and logs with what they must give, proofs/ the theorems.
#![tactic(auto)]
