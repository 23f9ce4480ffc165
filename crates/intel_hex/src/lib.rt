// No code: what a text in the Intel HEX format says, record by record, and the text of given words, in specs/.
#![tactic(auto)]
