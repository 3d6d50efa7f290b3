// The sheet text (S, W): definitions in specs/, what is proved of them in proofs/. No code.
#![tactic(auto)]
