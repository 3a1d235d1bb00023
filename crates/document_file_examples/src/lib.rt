//! Documents in a file that is held in memory. Tests alone, for the crate `document_file`.
#![tactic(auto)]

#[cfg(test)]
mod crashes;
#[cfg(test)]
mod rows_read_back;
#[cfg(test)]
mod stored_hubs;
#[cfg(test)]
mod written_rows;
