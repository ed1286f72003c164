// Images of the form that had if and try as commands of their own, and no procedures: what they meant, how they are rewritten in
// today's form, and that nothing a run leaves changes with that. All of it is in specs/ and proofs/.
#![tactic(auto)]
