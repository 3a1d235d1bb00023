//! For each fault a sentence that a person reads: what was looked for, and what would mend it.
#![tactic(auto)]

ghost use Rattle.std.specs.Prelude.{◌≡◌, true};
ghost use Rattle.fault_sentences.specs.Lines.{is_one_line};

use faults::Fault;
use std::fmt;

/// The sentence of a fault, as `{}` prints it: one line, without the text that the fault carries, which [`Fault`] itself
/// prints.
#[derive(Clone, Copy, Debug, Drop)]
pub struct Sentence<'a>(pub &'a Fault);

impl fmt::Display for Sentence<'_> {
    fn fmt<W: fmt::Write>(&self, f: &mut fmt::Formatter<W>) -> fmt::Result {
        f.write_str(sentence_of(self.0))
    }
}

/// The sentence of the fault.
pub fn sentence_of(fault: &Fault) -> &'static str
    ensures { is_one_line result.now ≡ true }
{
    match fault {
        Fault::BadJson =>
            "The text is no JSON in UTF-8, or nests deeper than 127. Mend it at the place that is named.",
        Fault::BadNumber =>
            "A number is not a whole number from -2^63 to 2^64 - 1. Write it as a whole number (1 for 1.0), or as a string.",
        Fault::BadPointer =>
            "The text is no JSON Pointer. Begin each step with /, and write ~ as ~0 and / as ~1.",
        Fault::BadFragment =>
            "A fragment has a broken percent escape, or its bytes are no UTF-8. Write % and two hexadecimal digits for each such byte.",
        Fault::BadPattern =>
            "A pattern is no regular expression that is read here, or is too big once it is built. Write it without look-around and back-references, and with smaller counts.",
        Fault::NotObject =>
            "A schema document has to be a JSON object. Write {} for true, and {\"not\":{}} for false.",
        Fault::TooNested =>
            "The schema nests too deep. Move inner schemas below $defs, and refer to them.",
        Fault::BadKeyword(_) =>
            "The keyword at this location has a value of a shape that it may not have. Look up the keyword in JSON Schema 2020-12; older drafts gave some keywords other shapes.",
        Fault::BadId =>
            "An $id gives no URI of a resource. Write an absolute URI, or a reference that its base makes one, without a fragment.",
        Fault::BadAnchor =>
            "An anchor is no name. Begin it with a letter or _, and go on with letters, digits, -, . and _.",
        Fault::Dialect =>
            "A $schema names another dialect than 2020-12. Write https://json-schema.org/draft/2020-12/schema, or leave it out.",
        Fault::DuplicateUri =>
            "Two schemas of the document have one URI. Give each $id a URI of its own.",
        Fault::DuplicateAnchor =>
            "Two schemas of one resource have an anchor of one name. Rename one of them.",
        Fault::NotFound =>
            "No document that was given has this URI. Give the document that has it, or correct the URI.",
        Fault::Unresolved(_) =>
            "A reference names no schema among the documents that were given. Give the document that it names, or correct the reference.",
        Fault::Costly =>
            "The schema applies too many schemas to this instance. Check smaller instances, or write the schema with fewer alternatives within one another.",
        Fault::Loop =>
            "A schema is applied where it is being applied already, so that it would never end. Break the circle of references, or put a keyword such as properties or items into it.",
        Fault::Deep =>
            "Too many schemas are applied within one another. Shorten the chain of references, or check an instance that nests less.",
        Fault::BundleClash(_) =>
            "Two documents of the bundle would stand under this key. Rename the member of $defs, or the $id.",
        Fault::BundleTooLarge =>
            "The bundle is too long, or nests too deep. Bundle a schema that refers to fewer documents.",
        Fault::BadCapacity =>
            "The size of the cache is out of its range. Give one that the limits allow.",
        Fault::DuplicateTenant => "Two tenants have one key. Give each a key of its own.",
        Fault::TooManyTenants => "There are too many tenants. Leave some to another server.",
        Fault::UnknownTenant =>
            "No tenant has the key. Send the key of a tenant of the tenants' file.",
        Fault::BadUri =>
            "The text is no URI that a document may stand under. Write one with a scheme and without a fragment, as https://example.org/order.",
        Fault::TooLarge =>
            "The body, or the library's file, has too many bytes. Give a smaller one.",
        Fault::Taken(_) =>
            "This URI belongs to another document already. Give the resource another $id, or take the other document away.",
        Fault::QuotaDocuments =>
            "The tenant would have more documents than its quota. Delete one first, or raise the quota.",
        Fault::QuotaBytes =>
            "The tenant's documents would have more bytes than its quota. Delete one first, or raise the quota.",
        Fault::NoRoom => "Memory ran out. Check smaller files, or fewer at once.",
        Fault::IdInUse => "A connection of this id is open already. Take another id.",
        Fault::NoSession => "No connection of this id is open. Open it first.",
        Fault::LibraryOwned =>
            "The document belongs to the fixed library, which no tenant changes. Put yours under another URI.",
        Fault::BadTenants =>
            "The tenants' file, or a key in it, has the wrong shape. Write {\"tenants\":[..]}, for each tenant its key, of 1 to 64 visible characters of ASCII, and its documents and bytes.",
        Fault::BadRoute =>
            "No request has this method and target. Look up the requests that there are.",
        Fault::BadRequest =>
            "The bytes are no request that is taken, and the connection is closed. Send a request of HTTP/1.1 with its length.",
        Fault::ReadFailed => "The input can't be read any further. Look whether it is still there.",
        Fault::WriteFailed =>
            "The output takes no more. Look whether there is room, and whether a reader is still there.",
        Fault::ReadBound => "The input came in too many pieces. Send larger ones.",
        Fault::BadInput =>
            "Standard input has to be one JSON object with the members schema and instance, and uri, a text, where it is given.",
        Fault::BadBatch =>
            "The bytes are no batch of documents, or one of none or too many. Write {\"put\":[..]} with 1 to 64 entries, each with a uri and a schema.",
        Fault::SameDocument(_) => "Two documents have this one URI. Give one of them another $id.",
    }
}
