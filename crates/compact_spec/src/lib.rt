// Theorems alone: what compact does, on lists, stands in specs/.
#![tactic(auto)]
