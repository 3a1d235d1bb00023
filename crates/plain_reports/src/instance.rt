//! What was judged, and how it is told.

/// An instance that was judged.
#[derive(Clone, Copy, Debug, Drop)]
pub struct Instance<'a> {
    /// The path of its file, as it was named.
    pub path: &'a str,
    /// Of an instance that is a line of its file the number of this line, from 1.
    pub line: Option<usize>,
    /// Its text.
    pub text: &'a [u8],
}

/// How errors are told.
#[derive(Clone, Copy, Debug, Drop, PartialEq, Eq)]
pub enum Style {
    /// Lines for a person at a terminal.
    Text {
        /// With a terminal's colours.
        colours: bool,
    },
    /// Annotations, as the workflow commands of GitHub have them.
    Github,
}
