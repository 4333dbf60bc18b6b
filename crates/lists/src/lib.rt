// Sums, tests and lists over the numbers 0, .., n - 1, and the list laws of loops: definitions in specs/, laws in specs/laws/. There is no code here.

#![tactic(auto)]
