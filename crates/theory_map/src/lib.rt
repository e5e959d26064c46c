// Theorems alone: on a sound pool the map on lists is the map on trees, so that document 01's demands on a map hold of the call.
#![tactic(auto)]
