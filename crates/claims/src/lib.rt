// No code: what is promised to the customer, stated in full and proved by citation, is in specs/.
#![tactic(auto)]
