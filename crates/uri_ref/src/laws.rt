//! Laws of the definitions, each the contract of a function that does nothing.

ghost use Rattle.std.specs.Prelude.{◌≡◌, IsTrue};
ghost use Rattle.definitions.specs.Values.{Text};
ghost use Rattle.definitions.specs.Uris.{Parts as UriParts, SplitsOnce, is_identifier, recompose, split};
ghost use Rattle.definitions.specs.Resolution.{resolve};

use crate::parts::Parts;

/// An identifier resolves to itself, whatever the base.
pub fn identifiers_stay()
    ensures { (base identifier : UriParts) → IsTrue (is_identifier identifier)
        → resolve base identifier ≡ identifier }
{}

/// The parts of a text recompose to it, and are the only ones that do (RFC 3986, section 5.3 and appendix B).
pub fn texts_split_once()
    ensures { SplitsOnce }
{}

/// Where the parts that a reference resolves to are an identifier, its text splits into them.
pub fn identifiers_split()
    ensures { (base reference : Text)
        → IsTrue (is_identifier (resolve (split base) (split reference)))
        → split (recompose (resolve (split base) (split reference)))
        ≡ resolve (split base) (split reference) }
{}

/// The text of an identifier splits into its parts.
pub fn identifier_splits(parts: &Parts)
    ensures { IsTrue (is_identifier parts.now) → split (recompose parts.now) ≡ parts.now }
{
    // What holds of all parts is known where a field is looked at.
    let _ = &parts.path;
}
