// No code: why a step answers its number, told in numbers, and that what is told is so, in specs/.
#![tactic(auto)]
