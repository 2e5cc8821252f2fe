// No code: the rules of the assignment, the method, and what is proved of them.
#![tactic(auto)]
