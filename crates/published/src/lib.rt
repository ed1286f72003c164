// The published semantics of GP 2, and theorems that the interpreter's meaning follows it. All of it is in specs/ and proofs/.
#![tactic(auto)]
