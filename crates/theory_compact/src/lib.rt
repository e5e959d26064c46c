// Theorems alone: what compact does to a sound pool is what it does to its tree.
#![tactic(auto)]
