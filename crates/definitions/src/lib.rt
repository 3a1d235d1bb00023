//! What everything in schemareg means: JSON values, pointers, references, schemas, outcomes and answers, as definitions
//! that the contracts of the other crates cite. There is no code here.
#![tactic(auto)]
