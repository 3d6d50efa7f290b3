// Marks against the door counter (V, P27 to P29): definitions in specs/, what is proved of them in proofs/. No code.
#![tactic(auto)]
