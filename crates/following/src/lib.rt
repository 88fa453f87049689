// What a scan that is given a second table must give, and why a built one changes nothing: no code
// lives here yet. specs/ says how its words are followed, proofs/ holds the theorems.
#![tactic(auto)]
