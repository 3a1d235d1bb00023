//! The examples of the folder `examples`, a module each, written by `examples/write_tests.py`.

mod annotations;
mod catalogue;
mod checkout;
mod committee;
mod folders;
mod generic_list;
mod order_bundle;
mod refusals;
mod settings_file;
mod standard_input;
mod strict_tree;
mod vehicles;
