// The theorem that a reader is shown (L23): specs/Shown.antt; of callers in Rattle and in C: specs/OfStates.antt, specs/OfBytes.antt; of the program `script`:
// specs/Scripted.antt; of the program `tiny`: specs/Listed.antt. What it rests on and its proof: proofs/. No code.
#![tactic(auto)]
