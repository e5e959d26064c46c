// Theorems alone: the pool of document 01 as a forest, and the four steps on its lists, stand in specs/.
#![tactic(auto)]
