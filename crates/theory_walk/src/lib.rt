// Theorems alone: the Arm walk of a pool is the walk of its tree; list and look up of a sound pool are that walk.
#![tactic(auto)]
