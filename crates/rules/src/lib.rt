// The meaning of the four mesh types, clause by clause: definitions in specs/, laws in proofs/. No code.
#![tactic(auto)]
