// What a rule means: no code lives here. specs/ holds the definitions, proofs/ the theorems about
// them.
#![tactic(auto)]
