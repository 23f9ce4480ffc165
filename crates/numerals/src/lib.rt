// No code: texts as bytes and numbers in digits, as definitions and laws in specs/.
#![tactic(auto)]
