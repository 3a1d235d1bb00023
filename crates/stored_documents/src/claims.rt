//! Claims: which document has the resource of a URI.

ghost use Rattle.std.specs.Prelude.{◌≡◌, ◌++◌, ◌∷◌, [], true, Contains, IfOk, OnOk, Some, if◌then◌else◌, is_some, option_map, string_bytes};
ghost use Rattle.definitions.specs.Values.{Text, same_text};
ghost use Rattle.stored_documents.specs.Claims.{ClaimsOnly, claim_of, claimed_uris, claims_in, claims_of, last_claim, own_claims};
ghost use Rattle.stored_documents.specs.SharedStored.{stored_documents};
ghost use Rattle.stored_documents.specs.StoredDocuments.{stored_view};

use crate::stored::Stored;
use std::alloc::{AllocError, Global};
use std::collections::BTreeMap;
use std::rc::Rc;

// The claims of documents to the URIs of their resources.
pub(crate) fn claims_to_make(
    alloc: Global,
    documents: &[Rc<Stored>],
) -> Result<Vec<(String, Rc<Stored>)>, AllocError>
    ensures { IfOk result (λ new_claims. claims_in new_claims.items
        ≡ claims_of (stored_documents documents.now)) }
{
    let mut new_claims = Vec::new(alloc);
    for document in documents {
        push_claims(alloc, &mut new_claims, document)?;
    }
    Ok(new_claims)
}

// Appends the claims of a document.
pub(crate) fn push_claims(
    alloc: Global,
    new_claims: &mut Vec<(String, Rc<Stored>)>,
    document: &Rc<Stored>,
) -> Result<(), AllocError>
    ensures { OnOk result (claims_in new_claims.new.items
        ≡ claims_in new_claims.old.items ++ own_claims (stored_view document.now.value)) }
{
    for uri in document.resource_uris() {
        push_claim(alloc, new_claims, uri.as_str(), document)?;
    }
    Ok(())
}

fn push_claim(
    alloc: Global,
    new_claims: &mut Vec<(String, Rc<Stored>)>,
    uri: &str,
    document: &Rc<Stored>,
) -> Result<(), AllocError>
    ensures { OnOk result (claims_in new_claims.new.items
        ≡ claims_in new_claims.old.items
        ++ (uri.now, (stored_view document.now.value).canonical) ∷ []) }
{
    let own_uri = uri.to_owned(alloc)?;
    let own_document = document.clone()?;
    new_claims.push((own_uri, own_document))?;
    Ok(())
}

// Makes those of the claims whose URIs nobody claims.
pub(crate) fn claim_unclaimed(
    alloc: Global,
    claims: &mut BTreeMap<String, Rc<Stored>>,
    new_claims: &[(String, Rc<Stored>)],
) -> Result<(), AllocError>
    ensures kept { (uri claim : Text) → claim_of claims.old uri ≡ Some claim
        → claim_of claims.new uri ≡ Some claim }
    ensures claimed { OnOk result
        ((uri claim : Text) → Contains (claims_in new_claims.now) (uri, claim)
        → is_some (claim_of claims.new uri) ≡ true) }
    ensures only { ClaimsOnly claims.old (claimed_uris new_claims.now) claims.new }
{
    for claim in new_claims {
        claim_where_none(alloc, claims, claim.0.as_str(), &claim.1)?;
    }
    Ok(())
}

fn claim_where_none(
    alloc: Global,
    claims: &mut BTreeMap<String, Rc<Stored>>,
    uri: &str,
    document: &Rc<Stored>,
) -> Result<(), AllocError>
    ensures kept { (u claim : Text) → claim_of claims.old u ≡ Some claim
        → claim_of claims.new u ≡ Some claim }
    ensures claimed { OnOk result (is_some (claim_of claims.new uri.now) ≡ true) }
    ensures only { ClaimsOnly claims.old (uri.now ∷ []) claims.new }
{
    if !claims.contains_key(uri) {
        let own_uri = uri.to_owned(alloc)?;
        let own_document = document.clone()?;
        claims.insert(own_uri, own_document)?;
    }
    Ok(())
}

// Makes the claims whose URIs are claimed, in place of the claims that stand there. This takes no memory.
pub(crate) fn make_claims(
    claims: &mut BTreeMap<String, Rc<Stored>>,
    new_claims: Vec<(String, Rc<Stored>)>,
)
    ensures { (uri : Text) → claim_of claims.new uri
        ≡ option_map (last_claim uri (claims_in new_claims.items)) (claim_of claims.old uri) }
{
    for claim in new_claims {
        make_claim(claims, claim.0, claim.1);
    }
}

fn make_claim(claims: &mut BTreeMap<String, Rc<Stored>>, uri: String, document: Rc<Stored>)
    ensures { (u : Text) → claim_of claims.new u
        ≡ option_map (λ claim. if same_text
        (string_bytes uri) u then (stored_view document.value).canonical else claim)
        (claim_of claims.old u) }
{
    if claims.contains_key(uri.as_str()) {
        match claims.insert(uri, document) {
            Ok(_) => {}
            Err(_) => unreachable!(),
        }
    }
}
