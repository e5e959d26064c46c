// Theorems alone: what the other crates' definitions and proofs lean on stands in specs/.
#![tactic(auto)]
