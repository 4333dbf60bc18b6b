// The algebra beneath the field layer: definitions in specs/, what is proved of them in specs/laws/. There is no code here.

#![tactic(auto)]
