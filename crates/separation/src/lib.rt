// What is claimed of every list of calls, and its proof. No code: the crate above runs lists of calls.
#![tactic(auto)]
