// Why a yes of balance is what Haböck's paper asks for: all nets are zero exactly where the paper's sums of every group vanish at enough points. The statements are in specs/, their proofs in specs/laws/. There is no code here.

#![tactic(auto)]
