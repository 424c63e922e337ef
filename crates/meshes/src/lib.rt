// What the readers of meshes and the builders from lists come to: definitions in specs/, what relates them in proofs/. No code.
#![tactic(auto)]
