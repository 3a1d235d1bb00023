//! A pointer that steps come to and go from, and its texts.
#![tactic(auto, unfolding(crate::specs::PointerViews::pointer_view))]

ghost use Rattle.std.specs.Prelude.{◌≡◌, ◌∷◌, ◌++◌, [], if◌then◌else◌, is_ok, length, take, IfOk, OnOk};
ghost use Rattle.locations.specs.Steps.{token, tokens};
ghost use Rattle.basic_output.specs.StepTexts.{AreStepTexts};
ghost use Rattle.basic_output.specs.declared.unit_text.step_texts.Notation.TheVariants as notation;

use crate::unit_text::{Notation, StepTexts};
use locations::Step;
use std::alloc::{AllocError, Global};

/// The texts of a pointer.
#[derive(Debug, Drop)]
pub struct PointerTexts {
    // As a pointer.
    pointer: StepTexts,
    // As a fragment, where some of its steps aren't plain.
    fragment: StepTexts,
}

/// A pointer (RFC 6901), as the steps of its tokens, and its texts as far as they were written: they stay while steps come
/// and go behind them, so that a step is written once for all units that stand below it.
///
/// Contracts see it by `pointer_view`.
#[derive(Drop)]
pub struct WrittenPointer<'a> {
    steps: Vec<Step<'a>>,
    texts: Box<PointerTexts>,
    ghost is_pointer: { AreStepTexts notation.Pointer texts.value.pointer steps.items },
    ghost is_fragment: { AreStepTexts notation.Fragment texts.value.fragment steps.items },
}

impl<'a> WrittenPointer<'a> {
    ghost use Rattle.json.specs.Print.{escape};
    ghost use Rattle.definitions.specs.Pointers.{fragment_text, pointer_text};
    ghost use Rattle.basic_output.specs.PointerViews.{onward_pointer, pointer_view};
    ghost use Rattle.basic_output.specs.WrittenPointers.{IsWritten, IsWrittenOnward};

    /// The whole document's, which is written in memory that was kept, if any was. The only error is want of memory.
    #[inline(never)]
    pub fn within(
        alloc: Global,
        memory: Option<Box<PointerTexts>>,
    ) -> Result<WrittenPointer<'a>, AllocError>
        ensures { IfOk result (λ p. pointer_view p ≡ []) }
    {
        let mut texts = match memory {
            Some(texts) => texts,
            None => Box::new(
                alloc,
                PointerTexts {
                    pointer: StepTexts::new(alloc),
                    fragment: StepTexts::new(alloc),
                },
            )?,
        };
        texts.pointer.clear();
        texts.fragment.clear();
        Ok(WrittenPointer {
            steps: Vec::new(alloc),
            texts,
        })
    }

    /// The memory that it was written in, for the next pointer, unless its text took more than 1,048,576 bytes.
    pub fn into_memory(self) -> Option<Box<PointerTexts>> {
        let is_kept = self.texts.pointer.is_kept() && self.texts.fragment.is_kept();
        is_kept.then_some(self.texts)
    }

    /// How many steps there are.
    pub fn len(&self) -> usize
        ensures { result ≡ length (pointer_view self.now) }
    {
        self.steps.len()
    }

    /// The steps.
    pub fn steps(&self) -> &[Step<'a>]
        ensures { tokens result.now ≡ pointer_view self.now }
    {
        self.steps.as_slice()
    }

    /// One step more. The only error is want of memory, and then the pointer stays as it was.
    pub fn push(&mut self, step: Step<'a>) -> Result<(), AllocError>
        ensures { pointer_view self.new
            ≡ (if is_ok result then pointer_view self.old ++ token step.entry ∷ []
            else pointer_view self.old) }
    {
        self.steps.push(step)?;
        Ok(())
    }

    /// Only so many steps stay.
    pub fn truncate(&mut self, len: usize)
        ensures { pointer_view self.new ≡ take len (pointer_view self.old) }
    {
        if len < self.steps.len() {
            self.texts.pointer.truncate(len);
            self.texts.fragment.truncate(len);
            self.steps.truncate(len);
        }
    }

    /// Writes what the text lacks. The only error is want of memory.
    #[inline(always)]
    pub fn write(&mut self) -> Result<(), AllocError>
        ensures written { OnOk result (IsWritten self.new) }
        ensures same { pointer_view self.new ≡ pointer_view self.old }
    {
        if self.texts.pointer.len() == self.steps.len() {
            return Ok(());
        }
        self.texts.pointer.write(Notation::Pointer, &self.steps)
    }

    /// Writes what the text lacks, and also the last steps, so many, as a fragment, where they aren't written in the same way
    /// there. The only error is want of memory.
    #[inline(always)]
    pub fn write_onward(&mut self, onward: usize) -> Result<(), AllocError>
        ensures written { OnOk result (IsWrittenOnward self.new onward) }
        ensures same { pointer_view self.new ≡ pointer_view self.old }
    {
        self.write()?;
        if self.texts.pointer.plain_from <= self.steps.len().saturating_sub(onward) {
            return Ok(());
        }
        self.texts.fragment.write(Notation::Fragment, &self.steps)
    }

    /// The text.
    pub fn text(&self) -> &str
        requires { IsWritten self.now }
        ensures { result.now ≡ escape (pointer_text (pointer_view self.now)) }
    {
        self.texts.pointer.as_str()
    }

    /// The text of the last steps, so many, as a fragment.
    #[inline(always)]
    pub fn onward_text(&self, onward: usize) -> &str
        requires { IsWrittenOnward self.now onward }
        ensures { result.now ≡ escape (fragment_text (onward_pointer self.now onward)) }
    {
        let inward = self.steps.len().saturating_sub(onward);
        if self.texts.pointer.plain_from <= inward {
            self.texts.pointer.behind(inward)
        } else {
            self.texts.fragment.behind(inward)
        }
    }
}
