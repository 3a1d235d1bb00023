//! Keywords, links, evaluations over linked documents, and whole checks, from texts to the text of the output: tests alone,
//! for the crate `checks` and those below it. The module `examples` has the cases of the folder of that name.
#![tactic(auto)]

#[cfg(test)]
mod answers;
#[cfg(test)]
mod bounds;
#[cfg(test)]
mod documents;
#[cfg(test)]
mod examples;
#[cfg(test)]
mod keyword_outputs;
#[cfg(test)]
mod known_targets;
#[cfg(test)]
mod large_reports;
#[cfg(test)]
mod limits;
#[cfg(test)]
mod linked_documents;
#[cfg(test)]
mod links;
#[cfg(test)]
mod long_enums;
#[cfg(test)]
mod long_patterns;
#[cfg(test)]
mod long_resources;
#[cfg(test)]
mod long_scopes;
#[cfg(test)]
mod outputs;
#[cfg(test)]
mod references;
#[cfg(test)]
mod refusals;
#[cfg(test)]
mod running_applications;
#[cfg(test)]
mod several_documents;
#[cfg(test)]
mod subjects;
#[cfg(test)]
mod successive_evaluations;
#[cfg(test)]
mod texts;
#[cfg(test)]
mod verdicts;
