//! The files that are read, and the file of a log.
ghost use Rattle.std.specs.Prelude.{◌≡◌, Bool, true, false, Option, None, IfOk, IfErr, IfSome, OnOk};
ghost use Rattle.definitions.specs.Values.{Text};
ghost use Rattle.service_forms.specs.Files.{may_be_folder};
ghost use Rattle.service_forms.specs.Stops.{IsUnread};

use crate::stop::Stop;
use std::alloc::Global;
use std::io::Write;

/// Files, by their paths.
///
/// Contracts see what the file at a path holds by `text_at`, where it is known, by `is_unreadable` which files are known not to
/// be read, and by `folder_at` whether a folder is at a path, where it is known.
pub trait Texts {
    ghost text_at: { Self → Text → Option Text } = { λ _ _. None };

    ghost is_unreadable: { Self → Text → Bool } = { λ _ _. false };

    ghost folder_at: { Self → Text → Option Bool } = { λ _ _. None };

    /// All bytes of the file at `path`.
    fn whole<'a>(&self, alloc: Global, path: &'a str) -> Result<Vec<u8>, Stop<'a>>
        ensures ok { IfOk result (λ bytes.
            IfSome (text_at self.now path.now) (λ text. bytes.items ≡ text)) }
        ensures readable { OnOk result (is_unreadable self.now path.now ≡ false) }
        ensures err { IfErr result (IsUnread path.now) };

    /// Whether a folder is at `path`.
    fn is_folder(&self, path: &str) -> bool
        ensures maybe { result ≡ true
            → may_be_folder (text_at self.now) (is_unreadable self.now) path.now ≡ true }
        ensures known { IfSome (folder_at self.now path.now) (λ is_folder. result ≡ is_folder) };
}

/// Files to whose ends is written, by their paths.
pub trait Logs {
    type Log: Write + Drop;

    /// The file at `path`, which is made where there is none.
    fn append<'a>(&self, path: &'a str) -> Result<Self::Log, Stop<'a>>
        ensures { IfErr result (λ stop. stop ≡ Stop.CannotLog path.entry) };
}
