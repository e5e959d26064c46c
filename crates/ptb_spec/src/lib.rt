// Theorems alone: what each call with numbers alone answers and leaves stands in specs/.
#![tactic(auto)]
