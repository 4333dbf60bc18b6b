// What generation's terminal says: that terminals determine ledgers, the paper's sums, and what the constraints accept. The statements are
// in specs/, their proofs in specs/laws/. There is no code here.

#![tactic(auto)]
