// The twelve worked cases of SPECIFICATION, section 12.1, as one table with one theorem. No code.

#![tactic(auto)]
