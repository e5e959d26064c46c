// Theorems alone: the table walk of the Arm manual, and its laws, stand in specs/.
#![tactic(auto)]
