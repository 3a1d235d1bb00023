//! Why the program ends without a report.
ghost use Rattle.std.specs.Prelude.{◌≡◌};

use crate::store_stop::StoreStop;
use clap::error::ErrorKind;
use connections::Outage;
use faults::Fault;
use std::fmt;

/// What is told where standard output cannot be written.
pub const UNWRITTEN: &str = "cannot write -\n";

/// Why the program ends without a report. Its `Display` is all that is printed, with the line feed.
#[derive(Debug, Drop)]
pub enum Stop<'a> {
    /// The words of the command line are no call, or ask for help or the version.
    Words(clap::Error),
    /// A word of the command line is no text in UTF-8.
    NotText,
    /// The file, or standard input under the name `-`, cannot be read.
    CannotRead(&'a str),
    /// The call is refused.
    Refused(Fault),
    /// Standard output cannot be written.
    CannotWrite,
    /// No connections can be had at the address.
    CannotListen(&'a str),
    /// A connection cannot be accepted.
    CannotAccept,
    /// Nothing can be appended to the file of the log.
    CannotLog(&'a str),
    /// What went wrong was told already, file by file.
    Told,
    /// More connections are to be open than the system's limit of descriptors allows, which are so many.
    TooManyConnections(usize),
    /// Documents aren't kept.
    Store(StoreStop<'a>),
}

impl<'a> Stop<'a> {
    ghost use Rattle.service_forms.specs.Services.{path_view};
    ghost use Rattle.service_forms.specs.Stops.{IsStopOf};

    /// Why connections are served no more, over the store at the path, if there is one.
    pub fn of_outage(store: Option<&'a str>, outage: Outage) -> Stop<'a>
        ensures { IsStopOf (path_view store.entry) outage result }
    {
        match outage {
            Outage::Broken => Stop::CannotAccept,
            Outage::Unsettled(unsettled) => match store {
                Some(path) => Stop::Store(StoreStop::Unsettled(path, unsettled)),
                None => Stop::CannotAccept,
            },
        }
    }
}

impl Stop<'_> {
    ghost use Rattle.service_forms.specs.Stops.{is_error, status_of};

    /// Whether the text goes to standard error. Help and the version go to standard output.
    pub fn is_error(&self) -> bool
        ensures { result ≡ is_error self.now }
    {
        match self {
            Stop::Words(error) => error.use_stderr(),
            _ => true,
        }
    }

    /// The status that the program ends with: 0 after help and the version, and else 2.
    pub fn status(&self) -> u8
        ensures { result ≡ status_of self.now }
    {
        if self.is_error() { 2 } else { 0 }
    }
}

impl fmt::Display for Stop<'_> {
    ghost use Rattle.service_forms.specs.Stops.{text_of};

    ghost output = { text_of };

    fn fmt<W: fmt::Write>(&self, f: &mut fmt::Formatter<W>) -> fmt::Result {
        match self {
            Stop::Words(error) => write!(f, "{error}"),
            Stop::NotText => f.write_str("error: the command line is not UTF-8\n"),
            Stop::CannotRead(name) => write!(f, "cannot read {name}\n"),
            Stop::Refused(fault) => write!(f, "refused: {fault}\n"),
            Stop::CannotWrite => f.write_str(UNWRITTEN),
            Stop::CannotListen(address) => write!(f, "cannot listen on {address}\n"),
            Stop::CannotAccept => f.write_str("cannot accept\n"),
            Stop::CannotLog(path) => write!(f, "cannot write {path}\n"),
            Stop::Told => f.write_str(""),
            Stop::TooManyConnections(most) => write!(
                f,
                "refused: --connections is above {most}, which the limit of open files allows\n"
            ),
            Stop::Store(stop) => write!(f, "{stop}\n"),
        }
    }
}

impl From<Fault> for Stop<'_> {
    ghost use Rattle.service_forms.specs.declared.stop.Stop.TheVariants.{Refused};

    ghost from_gives = { λ fault stop. stop ≡ Refused fault };

    fn from(fault: Fault) -> Self {
        Stop::Refused(fault)
    }
}

impl From<clap::Error> for Stop<'_> {
    ghost use Rattle.service_forms.specs.Stops.{stop_of};

    ghost from_gives = { λ error stop. stop ≡ stop_of error };

    fn from(error: clap::Error) -> Self {
        match error.kind() {
            ErrorKind::OutOfMemory => Stop::Refused(Fault::NoRoom),
            _ => Stop::Words(error),
        }
    }
}
