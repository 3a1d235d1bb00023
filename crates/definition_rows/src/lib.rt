//! Worked rows of the definitions: what they give on given texts, computed by the checker. There is no code here.
#![tactic(auto)]
