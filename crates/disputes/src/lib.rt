// The plain matcher answers as table, scan and closing do: no code lives here. specs/ holds the
// statements, proofs/ the proof.
#![tactic(auto)]
