//! Values, their texts, order and places, pointers, faults and the text of the output, on texts: tests alone, for the
//! crate `json_doc` and those beside it.
#![tactic(auto)]

#[cfg(test)]
mod escapes;
#[cfg(test)]
mod expectations;
#[cfg(test)]
mod fault_texts;
#[cfg(test)]
mod keyword_names;
#[cfg(test)]
mod large_texts;
#[cfg(test)]
mod name_lists;
#[cfg(test)]
mod names;
#[cfg(test)]
mod outputs;
#[cfg(test)]
mod places;
#[cfg(test)]
mod pointers;
#[cfg(test)]
mod reading;
#[cfg(test)]
mod steps;
#[cfg(test)]
mod successive_locations;
#[cfg(test)]
mod unique_values;
#[cfg(test)]
mod values;
