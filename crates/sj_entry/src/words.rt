//! The words that a program is called with.
ghost use Rattle.std.specs.Prelude.{List, IfOk};
ghost use Rattle.std.specs.declared.alloc.Global.{Global};
ghost use Rattle.std.specs.declared.string.String.{String};

use sj_base::NoMemory;
use std::env;
use std::io::ErrorKind;
use std::rt::Env;

/// What calls a program with words.
pub trait Caller {
    /// These are words that it gives.
    ghost gives: { Self → List (String Global) → Type 0 };

    /// The words after the program's name. Words that aren't text are no command, as no words are.
    fn words(&self) -> Result<Vec<String>, NoMemory>
        ensures { IfOk result (λ words. gives self.now words.items) };
}

impl<E: Env + AllocGlobal> Caller for E {
    ghost use Rattle.std.specs.Prelude.{⊤};

    // Which words there are is the system's to say.
    ghost gives = { λ _ _. ⊤ };

    fn words(&self) -> Result<Vec<String>, NoMemory> {
        match env::args(self) {
            Ok(args) => Ok(args.skip(1).collect(self.alloc())?),
            Err(e) if e.kind() == ErrorKind::OutOfMemory => Err(NoMemory),
            Err(_) => Ok(Vec::new(self.alloc())),
        }
    }
}
