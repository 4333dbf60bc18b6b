// Why a gateway may stand before a cabinet: a call that the gateway does not refuse by 1 has the same answer and the same outputs in the cabinet, at every entry point. The statement is in specs/, its proof in specs/laws/. There is no code here.

#![tactic(auto)]
