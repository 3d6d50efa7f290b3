// The model of docs/SPEC.md: definitions in specs/, cases computed from them and the laws of relations in proofs/ (the rest of what is proved: crate
// law_model). No code.
#![tactic(auto)]
