//! The words of the modes.
use squeue_enter::Mode;

// A text, and the mode that it names.
type Row = (&'static str, Option<Mode>);

const ROWS: [Row; 9] = [
    ("process", Some(Mode::Process)),
    ("nodrain", Some(Mode::NoDrain)),
    ("fill", Some(Mode::Fill)),
    ("", None),
    ("Fill", None),
    ("fil", None),
    ("filled", None),
    (" fill", None),
    ("no_drain", None),
];

#[test]
fn words_of_modes(rt: HostRuntime) {
    for &(text, mode) in &ROWS {
        assert_eq!(rt; Mode::of(text), mode, "{text}");
        if let Some(mode) = mode {
            assert_eq!(rt; mode.word(), text);
        }
    }
}
