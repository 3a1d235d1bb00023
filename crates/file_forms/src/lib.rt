//! The forms of the program that judge files: checks of several instances, bundles and scans, from the paths that the words
//! name to what is printed.
#![tactic(auto)]

mod answering;
mod bundling;
mod checking;
mod colours;
mod console;
mod folders;
mod gathering;
mod instances;
mod lines;
mod linked_schemas;
mod position;
mod reading;
mod refusals;
mod roots;
mod run;
mod scanning;
mod schema_file;
mod system_folders;
mod trouble;
mod trouble_lines;
mod walking;
mod wholes;

pub use bundling::bundle;
pub use checking::check_many;
pub use colours::wants_colours;
pub use console::Console;
pub use folders::{Folders, Found};
pub use position::place_of;
pub use scanning::scan;
pub use system_folders::SystemFolders;
pub use trouble::{Refusal, Trouble};
pub use walking::is_folder;
