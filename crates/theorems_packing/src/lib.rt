// What packing keeps of a table. There is no code here: the statements are in specs/, their proofs in specs/laws/.
// Packed: the packed table, which is what packing writes. Passes: the other entry points' tests pass on it. Ledger: the same entries on every
// row, and the same ledger. Bounds: the same height sum and bus widths. Terminal: the same sum on each bus, and the same terminal.
// Same, Accepted: balance accepts both or neither, with the same workspace.

#![tactic(auto)]
