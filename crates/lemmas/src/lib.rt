//! Lemmas that several crates cite: of lists, options, orders and texts, and of the definitions that the lowest crates
//! speak of. There is no code here.
#![tactic(auto)]
