//! The two parts of a word.

ghost use Rattle.std.specs.Prelude.{◌≡◌, ◌<◌, option_map};
ghost use Rattle.shell.specs.Parts.{split_at};

/// What stands before and behind the first separator, an ASCII character; none where the text has none.
pub fn split_at(text: &str, separator: char) -> Option<(&str, &str)>
    requires { separator < 128 }
    ensures { option_map (λ parts. (parts.0.now, parts.1.now)) result ≡ split_at separator text.now }
{
    text.split_once(separator)
}
