// What is proved of the model's definitions (crate spec_model): demand 3, the check of a state handed in, what is stored and handed back. No code.
#![tactic(auto)]
