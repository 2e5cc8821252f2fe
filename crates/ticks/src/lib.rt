// No code: the core that serves one tick at a time, what is read off it, and what is proved of it.
#![tactic(auto)]
