//! The units of an evaluation so far, and what it evaluated of the instance.

ghost use Rattle.std.specs.Prelude.{◌≡◌, ◌≤◌, ◌&&◌, [], not, IfOk, IfSome};
ghost use Rattle.std.proofs.Props.{props};
ghost use Rattle.output_texts.specs.NoUnits.{HasNoUnits};
ghost use Rattle.definitions.specs.Limits.{limits};
ghost use Rattle.json_doc.specs.NamedMembers.{name_text};
ghost use Rattle.keywords.specs.Rows.{row_of};
ghost use Rattle.evaluation_log.specs.Notes.{needs_to_pass};

use crate::tuning::KEPT_INDEXES;
use applicators::Part;
use basic_output::{Location, Mark, Says};
use json_doc::Name;
use keywords::Keyword;
use output_texts::NotedUnits;
use std::alloc::{AllocError, Global};

/// How many applications of schemas there may be in all.
const MOST_APPLICATIONS: u64 = 100_000;

/// The errors, should what is being applied fail; the annotations, should it pass; the names and the indexes of the
/// instance that were evaluated; and how many applications of schemas there were, and whether one of them looped or nested
/// too deep.
///
/// Contracts see all of it by `log_view`, the units as their texts.
#[derive(Drop)]
pub struct Log<'a> {
    pub alloc: Global,
    pub units: Box<NotedUnits>,
    pub names: Vec<Name<'a>>,
    pub indexes: Vec<usize>,
    pub count: u64,
    pub looped: bool,
    pub deep: bool,
    ghost within: { count ≤ limits.applications },
}

/// The memory of a log's indexes and of the texts of its units, to be kept for the next log.
#[derive(Drop)]
pub struct LogMemory {
    units: Option<Box<NotedUnits>>,
    indexes: Vec<usize>,
    ghost no_units: { IfSome units (λ u. HasNoUnits u.value) } by { Prim.hlevel props },
    ghost no_indexes: { indexes.items ≡ [] },
}

impl LogMemory {
    /// None yet. This takes no memory.
    pub fn new(alloc: Global) -> LogMemory {
        LogMemory {
            units: None,
            indexes: Vec::new(alloc),
        }
    }

    /// Keeps the memory of an earlier log's units. That of the errors is given back where it is more than what 1,048,576 bytes of
    /// text took and more than four times what these took, and so is that of the annotations.
    pub fn keep(&mut self, units: Box<NotedUnits>) {
        let mut units = units;
        units.clear();
        self.units = Some(units);
    }
}

/// How much there is of each, so that what comes later can be cut off.
#[derive(Clone, Copy, Debug)]
pub struct LogMark {
    pub errors: Mark,
    pub annotations: Mark,
    pub names: usize,
    pub indexes: usize,
}

/// How many names and indexes there were before a schema object.
#[derive(Clone, Copy, Debug, PartialEq, Eq)]
pub struct Before {
    pub names: usize,
    pub indexes: usize,
}

impl LogMark {
    /// The names and indexes alone.
    pub fn before(&self) -> Before
        ensures { result ≡ record { names = self.now.names; indexes = self.now.indexes } }
    {
        Before {
            names: self.names,
            indexes: self.indexes,
        }
    }
}

impl<'a> Log<'a> {
    ghost use Rattle.std.specs.Prelude.{◌<◌, ◌∷◌, ◌++◌, true, false, OnOk};
    ghost use Rattle.basic_output.specs.Parts.{text_of_unit};
    ghost use Rattle.basic_output.specs.Sayings.{says_value};
    ghost use Rattle.definitions.specs.Applied.{Outcome};
    ghost use Rattle.definitions.specs.Keywords.{Meaning};
    ghost use Rattle.definitions.specs.Outcomes.{leaf};
    ghost use Rattle.applicators.specs.Plans.{part_view};
    ghost use Rattle.evaluation_log.specs.Notes.{Notes, lengths, no_notes, notes_of_both, one_application, outcome_notes, part_notes};
    ghost use Rattle.evaluation_log.specs.Logs.{log_view, mark_view};
    ghost use Rattle.evaluation_log.specs.Notes.{IsSilent};

    /// Nothing yet. What is noted takes memory from `alloc`, and indexes and texts of units where they find too little in what was
    /// kept. The only error is want of memory.
    #[inline(always)]
    pub fn within(alloc: Global, memory: LogMemory) -> Result<Log<'a>, AllocError>
        ensures { IfOk result (λ log. log_view log ≡ no_notes) }
    {
        let LogMemory { units, indexes } = memory;
        let units = none_within(alloc, units)?;
        Ok(Log {
            alloc,
            units,
            names: Vec::new(alloc),
            indexes,
            count: 0,
            looped: false,
            deep: false,
        })
    }

    /// The units, and the memory of the indexes for the next log, which is given back where there was room for more than 131,072.
    pub fn into_units(self) -> (Box<NotedUnits>, LogMemory)
        ensures { result.0 ≡ self.entry.units }
    {
        let Log {
            alloc,
            units,
            indexes,
            ..
        } = self;
        let memory = LogMemory {
            units: None,
            indexes: emptied(alloc, indexes),
        };
        (units, memory)
    }

    /// Nothing any more. Memory is kept, that of the texts of units as [`LogMemory::keep`] keeps it.
    pub fn clear(&mut self)
        ensures { log_view self.new ≡ no_notes }
    {
        self.units.clear();
        self.names.clear();
        self.indexes.clear();
        self.count = 0;
        self.looped = false;
        self.deep = false;
    }

    /// All that there is.
    pub fn mark(&self) -> LogMark
        ensures { mark_view result ≡ lengths (log_view self.now) }
    {
        LogMark {
            errors: self.units.errors.mark(),
            annotations: self.units.annotations.mark(),
            names: self.names.len(),
            indexes: self.indexes.len(),
        }
    }

    /// Whether there were as many applications as there may be.
    pub fn is_full(&self) -> bool
        ensures full { result ≡ true → limits.applications ≤ self.now.count }
        ensures room { result ≡ false → self.now.count < limits.applications }
    {
        self.count >= MOST_APPLICATIONS
    }

    /// One more application.
    pub fn count_one(&mut self)
        requires room { self.old.count < limits.applications }
        ensures { log_view self.new ≡ notes_of_both (log_view self.old) one_application }
    {
        self.count += 1;
    }

    /// One more schema that was not applied, since it is being applied at this instance location.
    pub fn count_loop(&mut self)
        requires room { self.old.count < limits.applications }
        ensures { log_view self.new
            ≡ notes_of_both (log_view self.old) (outcome_notes (leaf true false)) }
    {
        self.count_one();
        self.looped = true;
    }

    /// One more schema that was not applied, since the applications nest too deep.
    pub fn count_too_deep(&mut self)
        requires room { self.old.count < limits.applications }
        ensures { log_view self.new
            ≡ notes_of_both (log_view self.old) (outcome_notes (leaf false true)) }
    {
        self.count_one();
        self.deep = true;
    }

    /// Puts an error last. The only error is want of memory.
    pub fn push_error(
        &mut self,
        location: Location<'_>,
        says: Says<'_, 'a>,
    ) -> Result<(), AllocError>
        ensures { OnOk result (log_view self.new
            ≡ notes_of_both (log_view self.old)
            (record no_notes {
              errors = text_of_unit false location.entry (says_value says.entry)
                  ∷ [];
            })) }
    {
        self.units.errors.push(false, location, says)
    }

    /// Puts an annotation last. The only error is want of memory.
    pub fn push_annotation(
        &mut self,
        location: Location<'_>,
        says: Says<'_, 'a>,
    ) -> Result<(), AllocError>
        ensures { OnOk result (log_view self.new
            ≡ notes_of_both (log_view self.old)
            (record no_notes {
              annotations = text_of_unit true location.entry (says_value says.entry)
                  ∷ [];
            })) }
    {
        self.units.annotations.push(true, location, says)
    }

    /// A name was evaluated. The only error is want of memory.
    pub fn push_name(&mut self, name: Name<'a>) -> Result<(), AllocError>
        ensures { OnOk result (log_view self.new
            ≡ notes_of_both (log_view self.old)
            (record no_notes { names = name_text name.entry ∷ [] })) }
    {
        self.names.push(name)?;
        Ok(())
    }

    /// An index was evaluated. The only error is want of memory.
    pub fn push_index(&mut self, index: usize) -> Result<(), AllocError>
        ensures { OnOk result (log_view self.new
            ≡ notes_of_both (log_view self.old) (record no_notes { indexes = index ∷ [] })) }
    {
        self.indexes.push(index)?;
        Ok(())
    }

    /// Puts an error at the mark, before those that came later. The only error is want of memory.
    pub fn insert_error(
        &mut self,
        mark: &LogMark,
        location: Location<'_>,
        says: Says<'_, 'a>,
    ) -> Result<(), AllocError>
        ensures { (older more : Notes) → mark_view mark.now ≡ lengths older
            → log_view self.old ≡ notes_of_both older more
            → OnOk result (log_view self.new
            ≡ notes_of_both older (record more {
              errors = text_of_unit false location.entry (says_value says.entry)
                  ∷ more.errors;
            })) }
    {
        self.units.errors.insert(mark.errors, false, location, says)
    }

    /// Puts an annotation at the mark, before those that came later. The only error is want of memory.
    pub fn insert_annotation(
        &mut self,
        mark: &LogMark,
        location: Location<'_>,
        says: Says<'_, 'a>,
    ) -> Result<(), AllocError>
        ensures { (older more : Notes) → mark_view mark.now ≡ lengths older
            → log_view self.old ≡ notes_of_both older more
            → OnOk result (log_view self.new
            ≡ notes_of_both older (record more {
              annotations = text_of_unit true location.entry (says_value says.entry)
                  ∷ more.annotations;
            })) }
    {
        self.units
            .annotations
            .insert(mark.annotations, true, location, says)
    }

    /// Cuts off the errors that came after the mark.
    pub fn cut_errors(&mut self, mark: &LogMark)
        ensures { (older more : Notes) → mark_view mark.now ≡ lengths older
            → log_view self.old ≡ notes_of_both older more
            → log_view self.new ≡ notes_of_both older (record more { errors = [] }) }
    {
        self.units.errors.cut_back(mark.errors);
    }

    /// Cuts off the annotations that came after the mark.
    pub fn cut_annotations(&mut self, mark: &LogMark)
        ensures { (older more : Notes) → mark_view mark.now ≡ lengths older
            → log_view self.old ≡ notes_of_both older more
            → log_view self.new ≡ notes_of_both older (record more { annotations = [] }) }
    {
        self.units.annotations.cut_back(mark.annotations);
    }

    /// Cuts off the names and the indexes that came after the mark.
    pub fn cut_evaluated(&mut self, mark: &LogMark)
        ensures { (older more : Notes) → mark_view mark.now ≡ lengths older
            → log_view self.old ≡ notes_of_both older more
            → log_view self.new ≡ notes_of_both older (record more { names = []; indexes = [] }) }
    {
        self.names.truncate(mark.names);
        self.indexes.truncate(mark.indexes);
    }

    /// Of what a keyword applied to a part of the instance, once it was applied: what it evaluated in place stays; else
    /// the part's name, or its index, takes the place of that. The index of an element that failed `contains` isn't
    /// evaluated. The only error is want of memory.
    pub fn settle_part(
        &mut self,
        keyword: Keyword,
        part: Part<'a>,
        mark: &LogMark,
        passed: bool,
    ) -> Result<(), AllocError>
        ensures { (older : Notes) (o : Outcome) → mark_view mark.now ≡ lengths older
            → log_view self.old ≡ notes_of_both older (outcome_notes o) → passed ≡ o.valid
            → OnOk result (log_view self.new
            ≡ notes_of_both older (part_notes (row_of keyword).meaning (part_view part.entry, o))) }
    {
        match part {
            Part::Whole => Ok(()),
            Part::Member(name) => {
                self.cut_evaluated(mark);
                self.push_name(name)
            }
            Part::Element(index) => {
                self.cut_evaluated(mark);
                if is_left_out(keyword, passed) {
                    Ok(())
                } else {
                    self.push_index(index)
                }
            }
            Part::NameOf(_) => {
                self.cut_evaluated(mark);
                Ok(())
            }
        }
    }

    /// One more application, to a part of the instance, that passed without a word: it evaluated the part's name, or its index,
    /// and nothing else. The only error is want of memory.
    #[inline(always)]
    pub fn note_silent(&mut self, part: Part<'a>) -> Result<(), AllocError>
        requires room { self.old.count < limits.applications }
        ensures { (m : Meaning) (o : Outcome) → IsSilent o → OnOk result (log_view self.new
            ≡ notes_of_both (log_view self.old) (part_notes m (part_view part.entry, o))) }
    {
        self.count_one();
        match part {
            Part::Whole => Ok(()),
            Part::Member(name) => self.push_name(name),
            Part::Element(index) => self.push_index(index),
            Part::NameOf(_) => Ok(()),
        }
    }
}

// No units, in this memory where there is any. The only error is want of memory.
fn none_within(
    alloc: Global,
    memory: Option<Box<NotedUnits>>,
) -> Result<Box<NotedUnits>, AllocError>
    requires { IfSome memory (λ u. HasNoUnits u.value) }
    ensures { IfOk result (λ u. HasNoUnits u.value) }
{
    match memory {
        Some(units) => Ok(units),
        None => Ok(Box::new(alloc, NotedUnits::new(alloc))?),
    }
}

// No indexes, in the memory of these, unless it is too large to be kept.
fn emptied(alloc: Global, indexes: Vec<usize>) -> Vec<usize>
    ensures { result.items ≡ [] }
{
    if indexes.capacity() > KEPT_INDEXES {
        return Vec::new(alloc);
    }
    let mut indexes = indexes;
    indexes.clear();
    indexes
}

// Of `contains` alone an element counts only where it passed.
fn is_left_out(keyword: Keyword, passed: bool) -> bool
    ensures { result ≡ (needs_to_pass (row_of keyword).meaning && not passed) }
{
    match keyword {
        Keyword::Contains => !passed,
        _ => false,
    }
}
