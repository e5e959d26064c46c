// Theorems alone: sound pools over any codec, and the four steps that keep them sound, stand in specs/.
#![tactic(auto)]
