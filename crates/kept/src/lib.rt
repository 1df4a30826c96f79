// What is claimed of a record that a caller keeps between calls, and its proof. No code: the definitions are in specs/, the laws in proofs/.
#![tactic(auto)]
