//! Where answers and troubles are told.

ghost use Rattle.std.specs.Prelude.{◌≡◌, ◌++◌};
ghost use Rattle.definitions.specs.Values.{Text};
ghost use Rattle.file_forms.specs.Refusals.{Tells};

use crate::trouble::Trouble;

/// Standard output and standard error.
///
/// Contracts see what was given to be printed on standard output, and what was told of troubles on standard error. How the
/// work goes on is told beside that.
pub trait Console {
    ghost printed: { Self → Text };

    ghost told: { Self → Text };

    /// Prints text to standard output, at once or later.
    fn print(&mut self, text: &str)
        ensures printed { printed self.new ≡ printed self.old ++ text.now }
        ensures told { told self.new ≡ told self.old };

    /// Tells of a trouble on standard error, behind all that was printed before. Where memory lacks for its lines, that is
    /// told instead.
    fn tell(&mut self, trouble: &Trouble)
        ensures printed { printed self.new ≡ printed self.old }
        ensures told { Tells trouble.now (told self.old) (told self.new) };

    /// Tells a line on standard error that is of no trouble.
    fn note(&mut self, line: &str)
        ensures printed { printed self.new ≡ printed self.old }
        ensures told { told self.new ≡ told self.old };

    /// One more was done, of so many, if that is known.
    fn step(&mut self, total: Option<usize>)
        ensures printed { printed self.new ≡ printed self.old }
        ensures told { told self.new ≡ told self.old };
}
