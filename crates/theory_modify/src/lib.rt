// Theorems alone: on a sound pool the modify on lists is the modify on trees, so that what document 01 says of a modify holds of the call.
#![tactic(auto)]
