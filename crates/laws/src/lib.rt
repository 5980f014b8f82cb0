#![tactic(auto)]

// Demands 2 and 3 as theorems about the definitions: specs/Demands.antt states them, the files beside it prove them.
