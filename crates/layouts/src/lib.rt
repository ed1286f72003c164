// Carrying a host between layouts: nothing is lost on the way there and back, and a program that ends with a result or a fail ends so on
// the carried graph, where there are as many slots, atoms to a label and records or more. All of it is in specs/ and proofs/.
#![tactic(auto)]
