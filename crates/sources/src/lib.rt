// No code: what a source text means, line by line, and the text that says given words, in specs/.
#![tactic(auto)]
