// No code: the grammar of one line of source, its reader and what is proved of them, in specs/.
#![tactic(auto)]
