//! The texts by which resources of linked documents, and their dynamic anchors, are told, by number.

ghost use Rattle.std.specs.Prelude.{◌≡◌, ◌++◌, true, IfOk, OnOk, Some, map, option_map, slice_get, string_bytes};
ghost use Rattle.std.specs.List.{flat_map};
ghost use Rattle.std.specs.BTreeMap.{keys};
ghost use Rattle.linker.specs.DocumentTexts.{identifying_texts};

use crate::linked::Linked;
use schema_scan::Compiled;
use std::alloc::{AllocError, Global};
use std::collections::{BTreeMap, BTreeSet};
use std::rc::Rc;
use text_numbers::TextNumbers;

/// The URIs of the resources of linked documents, the `$id`s of these resources' roots, and the names of their dynamic anchors,
/// by number: each is told by the bytes in which it differs from the others.
///
/// Contracts see them in the order of their numbers, by `numbered_texts`, and the number that is told of a text, by `number_of_text`.
#[derive(Drop)]
pub struct LinkedTexts<'a> {
    texts: Vec<&'a str>,
    numbers: TextNumbers,
}

impl<'a> LinkedTexts<'a> {
    ghost use Rattle.linker.specs.NumberedTexts.{numbered_texts, number_of_text};

    /// The number of the text, where it is one of these, and some number otherwise. It takes no memory.
    #[tactic(auto, unfolding(crate::specs::NumberedTexts::number_of_text))]
    pub fn number(&self, text: &str) -> usize
        ensures { result ≡ number_of_text self.now text.now }
    {
        self.numbers.number(text)
    }

    /// Whether the text of this number is this one: all of it is compared.
    pub fn is(&self, number: usize, text: &str) -> bool
        ensures { result ≡ true → slice_get (numbered_texts self.now) number ≡ Some text.now }
    {
        match self.text(number) {
            Some(numbered) => numbered == text,
            None => false,
        }
    }

    // The text of this number.
    #[tactic(auto, unfolding(crate::specs::NumberedTexts::numbered_texts))]
    fn text(&self, number: usize) -> Option<&'a str>
        ensures { option_map (λ t. t.now) result ≡ slice_get (numbered_texts self.now) number }
    {
        self.texts.get(number).copied()
    }
}

impl Linked {
    ghost use Rattle.linker.specs.NumberedTexts.{AreNumberedTexts};

    /// The URIs of the documents' resources, the `$id`s of their roots and the names of their dynamic anchors, by number. The
    /// only error is want of memory.
    pub fn texts(&self, alloc: Global) -> Result<LinkedTexts<'_>, AllocError>
        ensures { IfOk result (AreNumberedTexts self.now) }
    {
        let mut texts = texts_of(alloc, &self.documents)?;
        add_names(&mut texts, &self.dynamic_resources)?;
        let numbers = TextNumbers::of_borrowed(alloc, &texts)?;
        Ok(LinkedTexts { texts, numbers })
    }

    /// How many bytes these texts have together.
    pub fn text_bytes(&self) -> usize {
        let mut bytes: usize = 0;
        for document in &self.documents {
            bytes = bytes
                .saturating_add(bytes_of(document.resource_uris()))
                .saturating_add(bytes_of(document.identifiers()));
        }
        for name in self.dynamic_resources.keys() {
            bytes = bytes.saturating_add(name.len());
        }
        bytes
    }
}

// The URIs of the documents' resources, and the `$id`s of their roots.
fn texts_of<'a>(alloc: Global, documents: &'a [Rc<Compiled>]) -> Result<Vec<&'a str>, AllocError>
    ensures { IfOk result
        (λ ts. map (λ t. t.now) ts.items ≡ flat_map identifying_texts documents.now) }
{
    let mut texts = Vec::new(alloc);
    for document in documents {
        add(&mut texts, document.resource_uris())?;
        add(&mut texts, document.identifiers())?;
    }
    Ok(texts)
}

// Appends the strings.
fn add<'a>(texts: &mut Vec<&'a str>, strings: &'a [String]) -> Result<(), AllocError>
    ensures { OnOk result (map (λ t. t.now) texts.new.items
        ≡ map (λ t. t.now) texts.old.items ++ map string_bytes strings.now) }
{
    for string in strings {
        texts.push(string.as_str())?;
    }
    Ok(())
}

// Appends the names.
fn add_names<'a>(
    texts: &mut Vec<&'a str>,
    resources: &'a BTreeMap<String, BTreeSet<String>>,
) -> Result<(), AllocError>
    ensures { OnOk result (map (λ t. t.now) texts.new.items
        ≡ map (λ t. t.now) texts.old.items
        ++ map string_bytes (keys resources.now)) }
{
    for name in resources.keys() {
        texts.push(name.as_str())?;
    }
    Ok(())
}

// How many bytes the strings have together.
fn bytes_of(strings: &[String]) -> usize {
    let mut bytes: usize = 0;
    for string in strings {
        bytes = bytes.saturating_add(string.len());
    }
    bytes
}
