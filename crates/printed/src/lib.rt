// No code: the text that the run program prints, to the byte, as definitions and theorems in specs/.
#![tactic(auto)]
