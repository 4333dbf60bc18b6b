// LogUp: the definitions of generation, of the row reader, of the constraints and of the ledger. The crates above have the code.

#![tactic(auto)]
