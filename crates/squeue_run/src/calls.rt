//! The CALLs of the words.

ghost use Rattle.std.specs.Prelude.{◌≡◌, option_and_then};
ghost use Rattle.shell.specs.Parts.{split_at};
ghost use Rattle.squeue_run.specs.Asked.{asked_of, buffer_by, call_by, call_of};

use conn_blocks::CALLERS;
use shell::{ReadsCall, number_between, split_at};
use tcb_machine::{Call, PLAIN_SPACE};

/// One CALL: the thread that makes it (0 to 3), the connection that it is on, and what it asks.
#[derive(Clone, Copy, Debug, PartialEq, Eq)]
pub struct CallWord {
    pub thread: u32,
    pub connection: u32,
    pub call: Call,
}

impl ReadsCall for CallWord {
    ghost use Rattle.squeue_run.specs.Asked.{call_of};

    ghost call_of = { λ word. call_of word };

    fn read_call(word: &str) -> Option<CallWord> {
        call_in(word)
    }
}

/// What a CALL asks: `status`, `close` or `buffer=N`.
fn asked_in(text: &str) -> Option<Call>
    ensures { result ≡ asked_of text.now }
{
    match text {
        "status" => Some(Call::Status),
        "close" => Some(Call::Close),
        _ => buffer_in(text),
    }
}

/// `buffer=N`.
fn buffer_in(text: &str) -> Option<Call>
    ensures { result ≡ option_and_then buffer_by (split_at 61 text.now) }
{
    let (name, size) = split_at(text, '=')?;
    if name != "buffer" {
        return None;
    }
    let size = number_between(size, 0, PLAIN_SPACE)?;
    Some(Call::Buffer(size as u16))
}

/// The CALL that a word is.
fn call_in(word: &str) -> Option<CallWord>
    ensures { result ≡ call_of word.now }
{
    let (thread, rest) = split_at(word, ':')?;
    let (connection, asked) = split_at(rest, ':')?;
    call_by(thread, connection, asked)
}

fn call_by(thread: &str, connection: &str, asked: &str) -> Option<CallWord>
    ensures { result ≡ call_by thread.now connection.now asked.now }
{
    if thread.len() != 1 {
        return None;
    }
    Some(CallWord {
        thread: number_between(thread, 0, CALLERS - 1)?,
        connection: number_between(connection, 0, u32::MAX)?,
        call: asked_in(asked)?,
    })
}
