// Theorems alone: what a map, a modify and a compact do to the tree that a sound pool shows stands in specs/.
#![tactic(auto)]
