// Commands that only wrap others, sequence, skip and the call of a procedure: two programs that differ in wrapping alone give the same but
// for the steps; so do a program and the same with its calls written out, and its steps are more by the calls entered.
// All of it is in specs/ and proofs/.
#![tactic(auto)]
