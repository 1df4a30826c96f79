// The certain values and the edges of document 01, as rows of one table, and their proof. No code.
#![tactic(auto)]
