// Lists, and what it is to write one into lent memory: definitions in specs/, laws in proofs/. No code.
#![tactic(auto)]
