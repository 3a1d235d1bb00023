//! The units of the basic output and their text (JSON Schema 2020-12 Core, 12.4.2).
#![tactic(auto)]

mod joined;
mod location;
mod memory;
mod name_lists;
mod origin;
mod says;
mod tuning;
mod unit_text;
mod units;
mod written_pointer;

pub use location::Location;
pub use locations::Step;
pub use origin::Origin;
pub use says::Says;
pub use units::{Mark, Units};
pub use written_pointer::{PointerTexts, WrittenPointer};
