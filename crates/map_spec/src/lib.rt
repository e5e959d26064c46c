// Theorems alone: the call map, on lists, stands in specs/.
#![tactic(auto)]
