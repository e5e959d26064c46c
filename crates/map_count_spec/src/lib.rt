// Theorems alone: refusal 9's count over the rules, and as it is computed, stand in specs/.
#![tactic(auto)]
