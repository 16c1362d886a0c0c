use crate::accounts::ACCOUNTS;
use crate::row::{CHECKED, REFUSED, Row};

// Scripts under `check`.
static ROWS: [Row; 7] = [
    Row {
        name: "check: empty",
        script: "",
        ..CHECKED
    },
    Row {
        name: "check: first_sum",
        script: "x = {}\nx.f = 41 + 1\nprint(x.f)\n",
        ..CHECKED
    },
    Row {
        name: "check: a loop",
        script: "x = 1\nwhile x < 3:\n    x = x + 1\n",
        ..CHECKED
    },
    Row {
        name: "check: accounts",
        script: ACCOUNTS,
        ..CHECKED
    },
    Row {
        name: "check: a smaller indentation that equals none",
        words: &["check"],
        script: "while True:\n    pass\n pass",
        text: "refused BadIndent at line 3 column 2\n",
        ..REFUSED
    },
    Row {
        name: "check: a bad byte",
        words: &["check"],
        script: "x = !",
        text: "refused BadByte at line 1 column 5\n",
        ..REFUSED
    },
    Row {
        name: "check: an unknown name",
        words: &["check"],
        script: "x = y",
        text: "refused UnknownName at line 1 column 5\n",
        ..REFUSED
    },
];

/// The scripts under `check`.
pub fn check_rows() -> &'static [Row] {
    &ROWS
}
