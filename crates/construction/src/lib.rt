// The construction stands in specs/ as definitions, and in proofs/ as theorems about them: this crate has no code of its own.
#![tactic(auto)]
