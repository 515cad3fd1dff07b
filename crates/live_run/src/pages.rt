//! The pages that a server hands out, which a file has in one piece.

ghost use Rattle.std.specs.Prelude.{◌≡◌, map, option_map};
ghost use Rattle.std.specs.String.{string_bytes};
ghost use Rattle.live_run.specs.Words.{pages_named};

use crate::fault::Fault;
use http_pages::Pages;
use live_server::Site;
use std::fs;
use std::rt::Files;

/// The file of pages, where the words begin with `--pages FILE`, and the words behind it.
pub fn pages_named(words: &[String]) -> (Option<&String>, &[String])
    ensures { (option_map (λ s. string_bytes s.now) result.0, map (λ s. string_bytes s) result.1.now) ≡ pages_named (map (λ s. string_bytes s) words.now) }
{
    let [word, name, rest @ ..] = words else {
        return (None, words);
    };
    if word.as_str() == "--pages" {
        (Some(name), rest)
    } else {
        (None, words)
    }
}

/// The pages in a file, where one is named. A file that can't be read, or isn't pages in one piece, is a fault of reading.
pub fn site_in<W: AllocGlobal + Files>(
    rt: &W,
    name: Option<&String>,
) -> Result<Option<Site>, Fault> {
    let Some(name) = name else {
        return Ok(None);
    };
    let Ok(pack) = fs::read(rt, name.as_str()) else {
        return Err(Fault::Reading);
    };
    let Ok(pages) = Pages::of(rt.alloc(), pack) else {
        return Err(Fault::Reading);
    };
    match Site::of(rt.alloc(), pages) {
        Ok(site) => Ok(Some(site)),
        Err(_) => Err(Fault::NoMemory),
    }
}
