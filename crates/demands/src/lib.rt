// The user's three demands on an interpreter, and theorems that ours meets them and that worthless ones don't. All of it is
// in specs/ and proofs/.
#![tactic(auto)]
