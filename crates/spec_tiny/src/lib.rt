// Every tiny sheet (P21 to P25): definitions in specs/, what is proved of them in proofs/. No code.
#![tactic(auto)]
