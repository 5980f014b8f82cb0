// What it means to set or remove one optional of a message, and what is promised of it: definitions in specs/, laws in proofs/. The calls are in `change`.
#![tactic(auto)]
