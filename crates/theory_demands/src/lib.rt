// Theorems alone: the demands, sentence by sentence, and the refusal slip stand in specs/.
#![tactic(auto)]
