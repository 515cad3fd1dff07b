//! The modes of entering.

ghost use Rattle.std.specs.Prelude.{◌≡◌, Some};
ghost use Rattle.histories.specs.ModeWords.{mode_of, mode_word};

/// What `enter` does with a chain of entries (the entry modes of illumos' `squeue_enter`).
#[derive(Clone, Copy, Debug, PartialEq, Eq)]
pub enum Mode {
    /// Where the perimeter is free, own it, and process what is brought and what comes meanwhile, up to a budget.
    Process,
    /// Where the perimeter is free and empty, process a lone entry, and nothing else.
    NoDrain,
    /// Queue, and leave it to the worker.
    Fill,
}

impl Mode {
    /// The mode's word on a command line and in a report: `process`, `nodrain` or `fill`.
    #[tactic(auto, using(crate::proofs::ModeWords::word_names), unfolding(crate::specs::ModeWords::mode_word))]
    pub fn word(self) -> &'static str
        ensures word { result.now ≡ mode_word self }
        ensures names { mode_of result.now ≡ Some self }
    {
        match self {
            Mode::Process => "process",
            Mode::NoDrain => "nodrain",
            Mode::Fill => "fill",
        }
    }

    /// The mode whose word the text is, byte for byte, or `None`.
    #[tactic(auto, unfolding(crate::specs::ModeWords::mode_word))]
    pub fn of(text: &str) -> Option<Mode>
        ensures { result ≡ mode_of text.now }
    {
        match text {
            "process" => Some(Mode::Process),
            "nodrain" => Some(Mode::NoDrain),
            "fill" => Some(Mode::Fill),
            _ => None,
        }
    }
}

/// The words of all modes, as a line of usage names them.
pub const MODE_WORDS: &str = "process|nodrain|fill";
