// No code: what follows from the definitions of SA2 and its plans.

#![tactic(auto)]
