//! Places in JSON texts, and the reports that people read: tests alone, for `text_places` and the crates on it.
#![tactic(auto)]

#[cfg(test)]
mod expectations;
#[cfg(test)]
mod hints;
#[cfg(test)]
mod places;
#[cfg(test)]
mod reports;
