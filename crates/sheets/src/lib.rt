// No code: the sheet of a night of images, its lines and its totals to the byte, as definitions and theorems in specs/.
#![tactic(auto)]
