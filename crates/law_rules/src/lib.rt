// Laws of the definitions (crates spec_model and spec_sheet) that each say a rule of docs/SPEC.md. No code.
#![tactic(auto)]
