// Theorems alone: document 01's starred bench cases stand in specs/.
#![tactic(auto)]
