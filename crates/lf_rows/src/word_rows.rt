use crate::row::{MISWORDED, Row};

// Words that name no command.
static ROWS: [Row; 35] = [
    Row {
        name: "bad_words: none",
        words: &[],
        ..MISWORDED
    },
    Row {
        name: "bad_words: help",
        words: &["help"],
        ..MISWORDED
    },
    Row {
        name: "bad_words: a number of workers",
        words: &["run", "--workers", "0"],
        ..MISWORDED
    },
    Row {
        name: "bad_words: an option without its value",
        words: &["run", "--steps"],
        ..MISWORDED
    },
    Row {
        name: "bad_words: an option twice",
        words: &["run", "--seed", "1", "--seed", "1"],
        ..MISWORDED
    },
    Row {
        name: "bad_words: two dashes",
        words: &["run", "--"],
        ..MISWORDED
    },
    Row {
        name: "bad_words: inspect",
        words: &["inspect", "--schedule", "free"],
        ..MISWORDED
    },
    Row {
        name: "bad_words: code with a second word",
        words: &["code", "check"],
        ..MISWORDED
    },
    Row {
        name: "bad_words: check with a second word",
        words: &["check", "x"],
        ..MISWORDED
    },
    Row {
        name: "bad_words: run and check",
        words: &["run", "check"],
        ..MISWORDED
    },
    Row {
        name: "bad_words: another case",
        words: &["Run"],
        ..MISWORDED
    },
    Row {
        name: "bad_words: run twice",
        words: &["run", "run"],
        ..MISWORDED
    },
    Row {
        name: "bad_words: an empty word",
        words: &[""],
        ..MISWORDED
    },
    Row {
        name: "bad_words: no ticks",
        words: &["run", "--steps", "0"],
        ..MISWORDED
    },
    Row {
        name: "bad_words: too many ticks",
        words: &["run", "--steps", "1000000001"],
        ..MISWORDED
    },
    Row {
        name: "bad_words: far too many ticks",
        words: &["run", "--steps", "99999999999999999999999999999"],
        ..MISWORDED
    },
    Row {
        name: "bad_words: no ticks, in one word",
        words: &["run", "--steps=0"],
        ..MISWORDED
    },
    Row {
        name: "bad_words: no number",
        words: &["run", "--steps="],
        ..MISWORDED
    },
    Row {
        name: "bad_words: an empty number",
        words: &["run", "--steps", ""],
        ..MISWORDED
    },
    Row {
        name: "bad_words: a sign",
        words: &["run", "--steps", "+1"],
        ..MISWORDED
    },
    Row {
        name: "bad_words: a negative number",
        words: &["run", "--steps", "-1"],
        ..MISWORDED
    },
    Row {
        name: "bad_words: a negative number, in one word",
        words: &["run", "--steps=-1"],
        ..MISWORDED
    },
    Row {
        name: "bad_words: a space before the number",
        words: &["run", "--steps", " 1"],
        ..MISWORDED
    },
    Row {
        name: "bad_words: ticks twice",
        words: &["run", "--steps", "1", "--steps", "1"],
        ..MISWORDED
    },
    Row {
        name: "bad_words: ticks twice, in one word each",
        words: &["run", "--steps=1", "--steps=1"],
        ..MISWORDED
    },
    Row {
        name: "bad_words: the option before the command",
        words: &["--steps", "1", "run"],
        ..MISWORDED
    },
    Row {
        name: "bad_words: a shortened option",
        words: &["run", "--step", "1"],
        ..MISWORDED
    },
    Row {
        name: "bad_words: one dash",
        words: &["run", "-steps", "1"],
        ..MISWORDED
    },
    Row {
        name: "bad_words: ticks for check",
        words: &["check", "--steps", "1"],
        ..MISWORDED
    },
    Row {
        name: "bad_words: ticks for code",
        words: &["code", "--steps=1"],
        ..MISWORDED
    },
    Row {
        name: "bad_words: two dashes as the number",
        words: &["run", "--steps", "--"],
        ..MISWORDED
    },
    Row {
        name: "bad_words: two dashes at the end",
        words: &["run", "--steps=1", "--"],
        ..MISWORDED
    },
    Row {
        name: "bad_words: the number as a second word",
        words: &["run", "1"],
        ..MISWORDED
    },
    Row {
        name: "bad_words: an option that isn't there yet",
        words: &["run", "--behaviours", "1"],
        ..MISWORDED
    },
    Row {
        name: "bad_words: help as an option",
        words: &["run", "--help"],
        ..MISWORDED
    },
];

/// The words that name no command.
pub fn word_rows() -> &'static [Row] {
    &ROWS
}
