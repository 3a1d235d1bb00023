//! References and their parts, patterns, the shapes of keywords, and the scans and compiled forms of schema documents, on
//! texts: tests alone, for the crate `schema_scan` and those below it.
#![tactic(auto)]

#[cfg(test)]
mod distinct_texts;
#[cfg(test)]
mod documents;
#[cfg(test)]
mod expectations;
#[cfg(test)]
mod fragments;
#[cfg(test)]
mod letters_from_the_end;
#[cfg(test)]
mod pattern_limits;
#[cfg(test)]
mod pattern_matches;
#[cfg(test)]
mod pattern_refusals;
#[cfg(test)]
mod pattern_sizes;
#[cfg(test)]
mod patterns_of_documents;
#[cfg(test)]
mod pointers;
#[cfg(test)]
mod resolution;
#[cfg(test)]
mod resources;
#[cfg(test)]
mod scans;
#[cfg(test)]
mod shapes;
