//! What a command line asks for.

/// What registries start from, with the texts of their words.
#[derive(Clone, Copy, Debug, PartialEq, Eq)]
pub struct Setup<'a> {
    /// The file of the tenants.
    pub tenants: &'a str,
    /// The file of the library, if there is one.
    pub library: Option<&'a str>,
    /// The file in which the documents are kept; none where they are in memory alone.
    pub store: Option<&'a str>,
    /// How many compiled documents are kept at most, from 1 to 4096.
    pub cache: u32,
}

/// The limits of connections that are served side by side.
#[derive(Clone, Copy, Debug, PartialEq, Eq)]
pub struct Limits {
    /// How many connections are open at most, from 1 to 65536.
    pub connections: u32,
    /// After how many seconds without a byte read or written a connection is ended, from 1 to 86400.
    pub idle: u32,
    /// How many seconds a connection may be open, from 1 to 604800; none where it may be for as long as it likes.
    pub whole: Option<u32>,
    /// How many bytes all connections keep together, at which no other is read, from 1048576 to 4294967295.
    pub memory: u32,
}

/// Where it is told how connections and requests go.
#[derive(Clone, Copy, Debug, PartialEq, Eq)]
pub struct Logging<'a> {
    /// The file that gets what is told; none where standard error gets it.
    pub file: Option<&'a str>,
    /// Whether each request is told.
    pub requests: bool,
}

/// The documents that references run over, beside what is judged.
#[derive(Debug, PartialEq, Eq, Drop)]
pub struct Documents<'a> {
    /// The file of a batch of documents, if there is one.
    pub library: Option<&'a str>,
    /// Files and folders of documents.
    pub paths: Vec<&'a str>,
}

/// What is printed of a check.
#[derive(Clone, Copy, Debug, PartialEq, Eq)]
pub enum Format {
    /// A line for each cause, for people.
    Text,
    /// A line of JSON.
    Json,
    /// Annotations of GitHub's workflow commands.
    Github,
}

/// Checks of several instances.
#[derive(Debug, PartialEq, Eq, Drop)]
pub struct Checks<'a> {
    pub documents: Documents<'a>,
    /// The URI that the schema stands under; none where it stands where it lies.
    pub uri: Option<&'a str>,
    /// The file of the schema.
    pub schema: &'a str,
    /// Files and folders of instances, one at least; `-` is standard input.
    pub instances: Vec<&'a str>,
    /// Whether each line of a file is an instance.
    pub lines: bool,
    pub format: Format,
    /// Whether nothing is printed but what is wrong.
    pub quiet: bool,
}

/// A bundle of a schema with what it refers to.
#[derive(Debug, PartialEq, Eq, Drop)]
pub struct Bundling<'a> {
    pub documents: Documents<'a>,
    /// The URI that the schema stands under; none where it stands where it lies.
    pub uri: Option<&'a str>,
    /// The file of the schema.
    pub schema: &'a str,
    /// The file that gets the bundle; none where standard output gets it.
    pub out: Option<&'a str>,
}

/// A scan of schemas.
#[derive(Debug, PartialEq, Eq, Drop)]
pub struct Scanning<'a> {
    pub documents: Documents<'a>,
    /// Files and folders of schemas, one at least.
    pub schemas: Vec<&'a str>,
    /// Whether nothing is printed but what is wrong.
    pub quiet: bool,
}

/// What a command line asks for, with the texts of its words.
#[derive(Debug, PartialEq, Eq, Drop)]
pub enum Call<'a> {
    /// No words: one check, whose schema and instance standard input holds.
    Input,
    /// One check of the file `instance` by the file `schema`, which is taken to be at `uri`.
    Check {
        uri: &'a str,
        schema: &'a str,
        instance: &'a str,
    },
    /// Checks of several instances, or of one with other words than a check of one file has.
    CheckMany {
        checks: Checks<'a>,
    },
    /// A bundle.
    Bundle {
        bundling: Bundling<'a>,
    },
    /// A scan.
    Scan {
        scanning: Scanning<'a>,
    },
    /// One connection on standard input and output.
    Run {
        setup: Setup<'a>,
    },
    /// Connections at the address `listen`, of which `accept` are accepted, from 1 to 65536.
    Serve {
        setup: Setup<'a>,
        listen: &'a str,
        accept: u32,
    },
    /// Connections at the address `listen`, side by side, up to the end of standard input.
    ServeMany {
        setup: Setup<'a>,
        listen: &'a str,
        limits: Limits,
        logging: Logging<'a>,
    },
}
