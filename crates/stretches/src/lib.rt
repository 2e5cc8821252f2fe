// No code: the sets of a room in stretches of the same lists, what a room's call says and leaves, and what is proved of it.
#![tactic(auto)]
