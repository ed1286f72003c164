// Host graphs as text: the words of a text, the grammar over them, and what import and export mean, in specs/; theorems about these, in
// proofs/.
#![tactic(auto)]
