//! Patterns of linked documents by number.

ghost use Rattle.std.specs.Prelude.{◌≡◌, Contains, IfSome, IsTrue, Some, is_some, option_map};
ghost use Rattle.definitions.specs.Schemas.{Schema};
ghost use Rattle.definitions.specs.Searches.{patterns_of};
ghost use Rattle.linker.specs.PatternNumbers.{pattern_text};
ghost use Rattle.linker.specs.ReferenceNumbers.{StandsIn, document_at};

use crate::linked::Linked;
use patterns::Pattern;

/// A pattern of linked documents: the number of the document that it stands in, and there its own.
///
/// Contracts see its text, by `pattern_text`.
#[derive(Clone, Copy, Debug)]
pub struct PatternNumber {
    pub(crate) document: usize,
    pub(crate) pattern: usize,
}

impl PatternNumber {
    /// The numbers of its document and there its own, by which it can be kept in a map.
    pub fn parts(self) -> (usize, usize)
        ensures { result ≡ (self.document, self.pattern) }
    {
        (self.document, self.pattern)
    }
}

impl Linked {
    /// The number of the pattern with this text that a schema of the document of this number has. It is told by the bytes in which
    /// the document's patterns differ: of another text it is some number, or nothing.
    pub fn pattern_number(&self, document: usize, text: &str) -> Option<PatternNumber>
        ensures text { (s : Schema) → StandsIn self.now s document
            → Contains (patterns_of s) text.now
            → IfSome result (λ n. pattern_text self.now n ≡ Some text.now) }
        ensures there { IsTrue (is_some (document_at self.now document)) → IsTrue (is_some result) }
    {
        let compiled = self.document(document)?;
        Some(PatternNumber {
            document,
            pattern: compiled.pattern_number(text),
        })
    }

    /// The pattern of this number.
    #[tactic(auto, unfolding(crate::specs::PatternNumbers::pattern_text))]
    pub fn numbered_pattern(&self, number: PatternNumber) -> Option<&Pattern>
        ensures { option_map (λ p. p.now) result ≡ pattern_text self.now number }
    {
        match self.document(number.document) {
            Some(document) => document.numbered_pattern(number.pattern),
            None => None,
        }
    }
}
