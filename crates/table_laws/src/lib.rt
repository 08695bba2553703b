// No code: what follows from the definitions of a table, its bytes and its rules.

#![tactic(auto)]
