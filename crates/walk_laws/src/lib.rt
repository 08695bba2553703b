// No code: what follows from the definitions of the rotation and the walk.

#![tactic(auto)]
