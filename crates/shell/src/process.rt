//! A program as a process: the words that it is given, and what it ends with.

ghost use Rattle.std.specs.Prelude.{◌≡◌, ℕ};
ghost use Rattle.std.specs.Process.{exit_status};

use crate::words::WordFault;
use sq_base::Status;
use std::alloc::AllocGlobal;
use std::env::Env;
use std::process::ExitCode;
use std::{env, io};

/// How a program may end.
pub trait ProgramEnd: Copy {
    /// The exit code of it.
    ghost code: { Self → ℕ };

    /// The exit code.
    fn exit_code(self) -> u8
        ensures { result ≡ code self };
}

impl ProgramEnd for Status {
    ghost use Rattle.sq_base.specs.StatusCode.{code_of};

    ghost code = { λ s. code_of s };

    fn exit_code(self) -> u8 {
        self.code()
    }
}

/// What the process ends with.
pub fn exit<S: ProgramEnd>(status: S) -> ExitCode
    ensures { exit_status result ≡ S.code status }
{
    ExitCode::from(status.exit_code())
}

/// The words after the program's name. They are the system's, of which no clause can speak. A word that isn't UTF-8 is none of any usage
/// line's.
pub fn words_of(rt: &(impl Env + AllocGlobal)) -> Result<Vec<String>, WordFault> {
    match words_in(rt) {
        Ok(words) => Ok(words),
        Err(error) if error.kind() == io::ErrorKind::InvalidData => Err(WordFault::Usage),
        Err(_) => Err(WordFault::NoMemory),
    }
}

fn words_in(rt: &(impl Env + AllocGlobal)) -> io::Result<Vec<String>> {
    let mut words = Vec::new(rt.alloc());
    for word in env::args(rt)?.skip(1) {
        words.push(word)?;
    }
    Ok(words)
}
