//! Laws of what streams spell and of what connections do with them, each as the contract of a function that does nothing.
#![tactic(auto)]

mod answering;
mod spelling;
mod taking;

pub use answering::{Answering, ended_streams_are_answered_once, streams_are_answered_once};
pub use spelling::{
    cut_streams_spell_the_same, heads_begin_with_no_line_end, hopeless_bytes_begin_with_no_request,
    hopeless_bytes_stay_hopeless, parts_of_heads_are_no_heads, streams_are_spelled_once,
    waiting_bytes_begin_with_no_request,
};
pub use taking::{
    hopeless_bytes_close, last_requests_close, line_ends_are_dropped, pieces_are_taken_as_one,
    requests_are_answered, waiting_bytes_are_held,
};
