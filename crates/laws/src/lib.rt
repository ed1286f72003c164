// Theorems about the definitions: that a first match is one and the first, that changes keep the layout and can be undone, that
// a run leaves legal tables. All of it is in specs/.
#![tactic(auto)]
