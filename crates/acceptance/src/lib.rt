// No code: the conditions of the tender, stated once, to be read (specs/).
#![tactic(auto)]
