// Theorems alone: document 01's starred bench cases as rows, and the quick ones, stand in specs/.
#![tactic(auto)]
