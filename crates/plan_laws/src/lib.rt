// No code: what follows from the definitions of SA1 and the builder, and which refusals there are.

#![tactic(auto)]
