// No code: the user's demands as theorems. Nothing stands on this crate.

#![tactic(auto)]
