//! Which words a program takes. A program has its table as a constant.

/// What an option takes.
#[derive(Clone, Copy, Debug, PartialEq, Eq)]
pub enum Takes {
    /// Nothing: it is a flag.
    Nothing,
    /// A number of one to ten digits from `least` to `most`. Without the option it is the default, where there is one.
    Number {
        least: u32,
        most: u32,
        default: Option<u32>,
    },
    /// A text, which the program tests itself. The usage line shows `shown` in its place. Without the option it is the default, where
    /// there is one.
    Text {
        shown: &'static str,
        default: Option<&'static str>,
    },
}

/// An option: `--name`, with what it takes as the next word or behind a `=`. It may stand once.
#[derive(Clone, Copy, Debug, PartialEq, Eq)]
pub struct OptionRow {
    /// The name, without the hyphens.
    pub name: &'static str,
    pub takes: Takes,
}

/// The words that a program takes.
#[derive(Clone, Copy, Debug)]
pub struct Table {
    /// The name that the program calls itself by.
    pub program: &'static str,
    /// The options, in the order of the usage line. No name stands twice, and none is `calls`.
    pub options: &'static [OptionRow],
    /// How many CALLs there may be: words that are no option, and those behind `--`.
    pub most_calls: usize,
}
