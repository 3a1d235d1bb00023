//! What a call of schemareg may answer in place of a result, with the number, the name and the HTTP status of each fault.
#![tactic(auto)]

ghost use Rattle.std.specs.Prelude.{◌≡◌, Some, option_map};
ghost use Rattle.definitions.specs.Faults.{row_of, number_of, name_of, status_of, carried_text};
ghost use Rattle.faults.specs.View.{fault_view, printed_text};
ghost use Rattle.faults.specs.declared.Fault.TheVariants.{NoRoom};

use std::alloc::{AllocError, AllocFailed};
use std::error::Error;
use std::fmt;

/// What a call may answer in place of a result. A fault that arises at a place carries its text.
#[derive(Debug, Drop, PartialEq)]
pub enum Fault {
    /// The text is no JSON in UTF-8, or nests deeper than 127 (RFC 8259).
    BadJson,
    /// The JSON text holds a number that is not a whole number of 64 bits.
    BadNumber,
    /// The text is no JSON Pointer (RFC 6901, section 3).
    BadPointer,
    /// The fragment has a broken percent escape, or its bytes are no UTF-8 (RFC 3986, section 2.1).
    BadFragment,
    /// The text is no regular expression, or one that cannot be built.
    BadPattern,
    /// The schema document is no JSON object.
    NotObject,
    /// The document nests too deep to be stored.
    TooNested,
    /// A keyword's value has the wrong shape; carries the pointer to the keyword.
    BadKeyword(String),
    /// An `$id` gives no identifier (JSON Schema 2020-12 Core, section 8.2.1).
    BadId,
    /// An `$anchor` or `$dynamicAnchor` is no plain name (Core, section 8.2.2).
    BadAnchor,
    /// A `$schema` names another dialect than 2020-12 (Core, section 8.1.1).
    Dialect,
    /// Two schema objects of the document open a resource of one URI.
    DuplicateUri,
    /// Two schema objects of one resource have an anchor of one name.
    DuplicateAnchor,
    /// No document, or no resource, has the URI.
    NotFound,
    /// A reference has no target; carries the absolute reference.
    Unresolved(String),
    /// The evaluation has more applications than its budget.
    Costly,
    /// A schema is applied where it is being applied already.
    Loop,
    /// The applications nest too deep.
    Deep,
    /// Two documents of the bundle want one key; carries the key.
    BundleClash(String),
    /// The bundle is too long, or nests too deep.
    BundleTooLarge,
    /// The cache's capacity is out of its range.
    BadCapacity,
    /// Two tenants have one key.
    DuplicateTenant,
    /// There are too many tenants.
    TooManyTenants,
    /// No tenant has the key.
    UnknownTenant,
    /// The text is no URI that a document may be put under or asked for.
    BadUri,
    /// The body has too many bytes.
    TooLarge,
    /// A resource of the document belongs to another document; carries its URI.
    Taken(String),
    /// The tenant would have more documents than its quota.
    QuotaDocuments,
    /// The tenant's documents would have more bytes than its quota.
    QuotaBytes,
    /// Memory ran out.
    NoRoom,
    /// The connection's id is open already.
    IdInUse,
    /// No connection of this id is open.
    NoSession,
    /// The document belongs to the fixed library.
    LibraryOwned,
    /// The tenants' file, or a tenant's key, has the wrong shape.
    BadTenants,
    /// No route has the request's target.
    BadRoute,
    /// The bytes are no request that is taken; the connection closes.
    BadRequest,
    /// The reader failed.
    ReadFailed,
    /// The writer failed, or took nothing.
    WriteFailed,
    /// The reader gave no end within the bound on reads.
    ReadBound,
    /// The program's input has the wrong shape.
    BadInput,
    /// The bytes are no batch, or one of too few or too many entries.
    BadBatch,
    /// Two entries of the batch give documents of one canonical URI; carries this URI.
    SameDocument(String),
}

impl Fault {
    /// The number, from 1 to 43.
    pub fn number(&self) -> u8
        ensures { result ≡ number_of (fault_view self.now) }
    {
        self.row().0
    }

    /// The name, as [`Fault::NoRoom`] has `NoRoom`.
    pub fn name(&self) -> &'static str
        ensures { result.now ≡ name_of (fault_view self.now) }
    {
        self.row().1
    }

    /// The HTTP status of a request that is refused so, from 400 to 503 (RFC 9110, section 15); none where no request is.
    pub fn status(&self) -> Option<u16>
        ensures { result ≡ status_of (fault_view self.now) }
    {
        self.row().2
    }

    /// The text that the fault carries: a pointer, a reference or a URI.
    pub fn at(&self) -> Option<&str>
        ensures { option_map (λ t. t.now) result ≡ carried_text (fault_view self.now) }
    {
        match self {
            Fault::BadKeyword(at)
            | Fault::Unresolved(at)
            | Fault::BundleClash(at)
            | Fault::Taken(at)
            | Fault::SameDocument(at) => Some(at.as_str()),
            _ => None,
        }
    }

    // The number, the name and the status.
    fn row(&self) -> (u8, &'static str, Option<u16>)
        ensures { (result.0, result.1.now, result.2) ≡ row_of (fault_view self.now) }
    {
        match self {
            Fault::BadJson => (1, "BadJson", Some(400)),
            Fault::BadNumber => (2, "BadNumber", Some(400)),
            Fault::BadPointer => (3, "BadPointer", None),
            Fault::BadFragment => (4, "BadFragment", None),
            Fault::BadPattern => (5, "BadPattern", Some(400)),
            Fault::NotObject => (6, "NotObject", Some(400)),
            Fault::TooNested => (7, "TooNested", Some(400)),
            Fault::BadKeyword(_) => (8, "BadKeyword", Some(400)),
            Fault::BadId => (9, "BadId", Some(400)),
            Fault::BadAnchor => (10, "BadAnchor", Some(400)),
            Fault::Dialect => (11, "Dialect", Some(400)),
            Fault::DuplicateUri => (12, "DuplicateUri", Some(400)),
            Fault::DuplicateAnchor => (13, "DuplicateAnchor", Some(400)),
            Fault::NotFound => (14, "NotFound", Some(404)),
            Fault::Unresolved(_) => (15, "Unresolved", Some(409)),
            Fault::Costly => (16, "Costly", Some(400)),
            Fault::Loop => (17, "Loop", Some(400)),
            Fault::Deep => (18, "Deep", Some(400)),
            Fault::BundleClash(_) => (19, "BundleClash", Some(409)),
            Fault::BundleTooLarge => (20, "BundleTooLarge", Some(400)),
            Fault::BadCapacity => (21, "BadCapacity", None),
            Fault::DuplicateTenant => (22, "DuplicateTenant", None),
            Fault::TooManyTenants => (23, "TooManyTenants", None),
            Fault::UnknownTenant => (24, "UnknownTenant", Some(403)),
            Fault::BadUri => (25, "BadUri", Some(400)),
            Fault::TooLarge => (26, "TooLarge", None),
            Fault::Taken(_) => (27, "Taken", Some(409)),
            Fault::QuotaDocuments => (28, "QuotaDocuments", Some(403)),
            Fault::QuotaBytes => (29, "QuotaBytes", Some(403)),
            Fault::NoRoom => (30, "NoRoom", Some(503)),
            Fault::IdInUse => (31, "IdInUse", None),
            Fault::NoSession => (32, "NoSession", None),
            Fault::LibraryOwned => (34, "LibraryOwned", Some(409)),
            Fault::BadTenants => (35, "BadTenants", None),
            Fault::BadRoute => (36, "BadRoute", Some(404)),
            Fault::BadRequest => (37, "BadRequest", Some(400)),
            Fault::ReadFailed => (38, "ReadFailed", None),
            Fault::WriteFailed => (39, "WriteFailed", None),
            Fault::ReadBound => (40, "ReadBound", None),
            Fault::BadInput => (41, "BadInput", None),
            Fault::BadBatch => (42, "BadBatch", Some(400)),
            Fault::SameDocument(_) => (43, "SameDocument", Some(409)),
        }
    }
}

/// The number, the name and, where the fault carries a text, this text, with a space between them.
impl fmt::Display for Fault {
    ghost output = { λ f. Some (printed_text (fault_view f)) };

    fn fmt<W: fmt::Write>(&self, f: &mut fmt::Formatter<W>) -> fmt::Result {
        let (number, name, _) = self.row();
        match self.at() {
            Some(at) => write!(f, "{number} {name} {at}"),
            None => write!(f, "{number} {name}"),
        }
    }
}

impl Error for Fault {}

impl From<AllocError> for Fault {
    ghost from_gives = { λ _ f. f ≡ NoRoom };

    fn from(_refused: AllocError) -> Fault {
        Fault::NoRoom
    }
}

impl<T: Drop> From<AllocFailed<T>> for Fault {
    ghost from_gives = { λ _ f. f ≡ NoRoom };

    fn from(_refused: AllocFailed<T>) -> Fault {
        Fault::NoRoom
    }
}
