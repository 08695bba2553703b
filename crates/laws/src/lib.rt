// No code: this crate holds facts on numbers, lists, searches and sums that know nothing of planning.

#![tactic(auto)]
