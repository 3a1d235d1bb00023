//! What the references and the `$id`s of a document's schemas are read as, each once.

ghost use Rattle.std.specs.Prelude.{◌≡◌, ◌<◌, ℕ, IfOk, IfSome, Some, length, slice_get, string_bytes};
ghost use Rattle.definitions.specs.Resolution.{target_uri};
ghost use Rattle.definitions.specs.Values.{Text};
ghost use Rattle.schema_table.specs.PairNumbers.{pair_number};
ghost use Rattle.uri_ref.specs.AbsoluteReferences.{IsReadAs};
ghost use Rattle.uri_ref.specs.declared.absolute_references.AbsoluteReference.{AbsoluteReference};

use crate::pair_numbers::{add_pair, pair_number};
use std::alloc::{AllocError, Global};
use std::collections::BTreeMap;
use uri_ref::{AbsoluteReference, ResolvedReference, resolved_reference, resolved_uri};

/// What the references and the `$id`s of a document's schemas are read as inside the resources around them.
///
/// To find one takes a look-up by the resource's URI and one by the reference's text, and no memory.
#[derive(Debug, Drop)]
pub struct AbsoluteReferences {
    read: Vec<AbsoluteReference>,
    /// The number of each, by the URI of the resource around it and by its text.
    numbers: BTreeMap<String, BTreeMap<String, usize>>,
    ghost within: { (uri text : Text) (number : ℕ) → pair_number numbers uri text ≡ Some number
        → number < length read.items },
    ghost sound: { (uri text : Text) (number : ℕ) (r : AbsoluteReference)
        → pair_number numbers uri text ≡ Some number → slice_get read.items number ≡ Some r
        → IsReadAs (target_uri uri text) (Some r) },
}

impl AbsoluteReferences {
    /// Nothing yet. This takes no memory.
    pub(crate) fn new(alloc: Global) -> AbsoluteReferences {
        AbsoluteReferences {
            read: Vec::new(alloc),
            numbers: BTreeMap::new(alloc),
        }
    }

    /// The reference, resolved inside this resource. What it is read as is kept, where it can be read.
    pub(crate) fn resolve(
        &mut self,
        alloc: Global,
        resource: &str,
        reference: &str,
    ) -> Result<String, AllocError>
        ensures { IfOk result
            (λ uri. string_bytes uri ≡ target_uri resource.now reference.now) }
    {
        if self.get(resource, reference).is_some() {
            return resolved_uri(alloc, resource, reference);
        }
        let ResolvedReference { text, named } = resolved_reference(alloc, resource, reference)?;
        if let Some(named) = named {
            self.insert(alloc, resource, reference, named)?;
        }
        Ok(text)
    }

    /// What the reference is read as inside this resource, where it was added.
    pub fn get(&self, resource: &str, reference: &str) -> Option<&AbsoluteReference>
        ensures { IfSome result
            (λ r. IsReadAs (target_uri resource.now reference.now) (Some r.now)) }
    {
        match pair_number(&self.numbers, resource, reference) {
            Some(number) => self.read.get(number),
            None => None,
        }
    }

    /// Keeps what the reference is read as inside this resource. Where memory is wanted, none can be found any more.
    pub(crate) fn insert(
        &mut self,
        alloc: Global,
        resource: &str,
        reference: &str,
        read: AbsoluteReference,
    ) -> Result<(), AllocError>
        requires { IsReadAs (target_uri resource.now reference.now) (Some read) }
    {
        let number = self.read.len();
        self.read.push(read)?;
        match add_pair(alloc, &mut self.numbers, resource, reference, number) {
            Ok(()) => Ok(()),
            Err(fault) => {
                self.numbers = BTreeMap::new(alloc);
                Err(fault)
            }
        }
    }
}
