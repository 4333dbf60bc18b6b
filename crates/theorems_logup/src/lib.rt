// Sums of fractions m ÷ (X - z) over a field, and why two tables of entries have the same ledger exactly where such sums agree at enough points: definitions in specs/, laws in specs/laws/. There is no code here.

#![tactic(auto)]
