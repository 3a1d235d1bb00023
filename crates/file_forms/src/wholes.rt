//! Texts that are instances as a whole.

ghost use Rattle.std.specs.Prelude.{◌≡◌, ◌∷◌, [], None, IfSome, codes};
ghost use Rattle.file_checks.specs.FileSources.{checker_linked};
ghost use Rattle.file_forms.specs.Stages.{GoesOver, stage_of};
ghost use Rattle.file_forms.specs.Subjects.{Are, IsWhole, instance_at};

use crate::console::Console;
use crate::folders::Folders;
use crate::reading;
use crate::run::Run;
use file_checks::Checker;
use plain_reports::Instance;
use std::io::Read;

impl Run {
    /// Checks the file as one instance.
    pub(crate) fn check_whole<F: Folders, C: Console>(
        &mut self,
        files: &F,
        console: &mut C,
        checker: &mut Checker<'_>,
        path: &str,
    )
        ensures { GoesOver (IsWhole path.now (F.holds files.now path.now))
            (stage_of self.old (checker_linked checker.old) (C.printed console.old)
            (C.told console.old))
            (stage_of self.new (checker_linked checker.new) (C.printed console.new)
            (C.told console.new)) }
    {
        match files.read(self.alloc, path) {
            Ok(text) => self.check_text(console, checker, path, text.as_slice()),
            Err(trouble) => self.refuse_unread(console, path, trouble),
        }
    }

    /// Checks standard input as one instance.
    pub(crate) fn check_whole_input<I: Read, C: Console>(
        &mut self,
        input: &mut I,
        console: &mut C,
        checker: &mut Checker<'_>,
    )
        ensures { GoesOver (IsWhole (codes "-") (λ text.
            IfSome (I.remaining input.old) (λ left. text ≡ left)))
            (stage_of self.old (checker_linked checker.old) (C.printed console.old)
            (C.told console.old))
            (stage_of self.new (checker_linked checker.new) (C.printed console.new)
            (C.told console.new)) }
    {
        match reading::whole(self.alloc, input, "-") {
            Ok(text) => self.check_text(console, checker, "-", text.as_slice()),
            Err(trouble) => self.refuse_unread(console, "-", trouble),
        }
    }

    // Checks the text as one instance.
    fn check_text<C: Console>(
        &mut self,
        console: &mut C,
        checker: &mut Checker<'_>,
        path: &str,
        text: &[u8],
    )
        ensures { GoesOver (Are (instance_at path.now None text.now ∷ []))
            (stage_of self.old (checker_linked checker.old) (C.printed console.old)
            (C.told console.old))
            (stage_of self.new (checker_linked checker.new) (C.printed console.new)
            (C.told console.new)) }
    {
        let instance = Instance {
            path,
            line: None,
            text,
        };
        self.check(console, checker, instance);
    }
}
