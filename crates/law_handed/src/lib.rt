// What a state that is handed in and one that is returned have in common is settled by their counted records: laws over the model's `Returns` (Q14 to Q16), in
// proofs/. No code.
#![tactic(auto)]
