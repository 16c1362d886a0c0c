use crate::accounts::ACCOUNTS;
use crate::row::{REFUSED, Row};

// Scripts of the language that don't run yet.
static ROWS: [Row; 13] = [
    Row {
        name: "when",
        script: "x = 1\nwhen:\n    pass\n",
        text: "refused NotBuilt at line 2 column 1\n",
        ..REFUSED
    },
    Row {
        name: "Cown",
        script: "c = Cown(1)\n",
        text: "refused NotBuilt at line 1 column 1\n",
        ..REFUSED
    },
    Row {
        name: "accounts",
        script: ACCOUNTS,
        text: "refused NotBuilt at line 4 column 1\n",
        ..REFUSED
    },
    Row {
        name: "in a function that is never called",
        script: "print(1)\ndef f():\n    return Cown(1)\n",
        text: "refused NotBuilt at line 3 column 1\n",
        ..REFUSED
    },
    Row {
        name: "in a branch that is never taken",
        script: "if False:\n    x = {}\n    print(Cown(x))\n",
        text: "refused NotBuilt at line 3 column 1\n",
        ..REFUSED
    },
    Row {
        name: "in an elif",
        script: "if False:\n    pass\nelif Cown(1) == 1:\n    pass\n",
        text: "refused NotBuilt at line 3 column 1\n",
        ..REFUSED
    },
    Row {
        name: "in a when",
        script: "print(1)\nwhen:\n    r = Region()\n    close(r)\n",
        text: "refused NotBuilt at line 2 column 1\n",
        ..REFUSED
    },
    Row {
        name: "after a return",
        script: "return\nprint(Cown(1))\n",
        text: "refused NotBuilt at line 2 column 1\n",
        ..REFUSED
    },
    Row {
        name: "the first of two, in a function",
        script: "when:\n    pass\ndef f():\n    Cown(1)\n",
        text: "refused NotBuilt at line 1 column 1\n",
        ..REFUSED
    },
    Row {
        name: "the first of two, in main",
        script: "def f():\n    pass\n\nCown(1)\ndef g():\n    Cown(1)\n",
        text: "refused NotBuilt at line 4 column 1\n",
        ..REFUSED
    },
    Row {
        name: "blank lines count",
        script: "\n  \nx = {}\n\n\nCown(x)\n",
        text: "refused NotBuilt at line 6 column 1\n",
        ..REFUSED
    },
    Row {
        name: "a refusal of names goes before",
        script: "c = Cown(1)\nx = y\n",
        text: "refused UnknownName at line 2 column 5\n",
        ..REFUSED
    },
    Row {
        name: "a refusal of bytes goes before",
        script: "c = Cown(1)\nx = !\n",
        text: "refused BadByte at line 2 column 5\n",
        ..REFUSED
    },
];

/// The scripts of the language that don't run yet.
pub fn not_built_rows() -> &'static [Row] {
    &ROWS
}
