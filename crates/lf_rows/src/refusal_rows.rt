use crate::row::{REFUSED, Row};

// Scripts that the language refuses.
static ROWS: [Row; 25] = [
    Row {
        name: "wide_numbers",
        script: "x = 9223372036854775808",
        text: "refused WideNumber at line 1 column 5\n",
        ..REFUSED
    },
    Row {
        name: "broken_streams: an open text",
        script: "print(\"ab",
        text: "refused OpenText at line 1 column 7\n",
        ..REFUSED
    },
    Row {
        name: "an unknown name",
        script: "x = y",
        text: "refused UnknownName at line 1 column 5\n",
        ..REFUSED
    },
    Row {
        name: "an unknown function",
        script: "f(1)",
        text: "refused UnknownFunction at line 1 column 1\n",
        ..REFUSED
    },
    Row {
        name: "a question of no variable",
        script: "print(refs(1))",
        text: "refused NotVariable at line 1 column 7\n",
        ..REFUSED
    },
    Row {
        name: "a number is no place",
        script: "1 = 2",
        text: "refused Unexpected at line 1 column 3\n",
        ..REFUSED
    },
    Row {
        name: "a bad byte",
        script: "x = !",
        text: "refused BadByte at line 1 column 5\n",
        ..REFUSED
    },
    Row {
        name: "a bad byte after a wrong statement",
        script: "x = 1\ny = !",
        text: "refused BadByte at line 2 column 5\n",
        ..REFUSED
    },
    Row {
        name: "an unbound object",
        script: "x = {}\ny.f = 1\n",
        text: "refused UnknownName at line 2 column 1\n",
        ..REFUSED
    },
    Row {
        name: "an unbound object's field",
        script: "x = {}\nx.f = 1\nx.g = y.f\n",
        text: "refused UnknownName at line 3 column 7\n",
        ..REFUSED
    },
    Row {
        name: "a space before the first token",
        script: "x = {}\n x.f = 1\n",
        text: "refused Unexpected at line 2 column 2\n",
        ..REFUSED
    },
    Row {
        name: "a tab",
        script: "x = {}\nx.f =\t1\n",
        text: "refused BadByte at line 2 column 6\n",
        ..REFUSED
    },
    Row {
        name: "a line of a tab alone",
        script: "x = {}\n\t\nx.f = 1\n",
        text: "refused BadByte at line 2 column 1\n",
        ..REFUSED
    },
    Row {
        name: "a byte past the printable ones",
        script: "x = {}\nx.é = 1\n",
        text: "refused BadByte at line 2 column 3\n",
        ..REFUSED
    },
    Row {
        name: "a word in the place of the object",
        script: "if = {}\n",
        text: "refused Unexpected at line 1 column 4\n",
        ..REFUSED
    },
    Row {
        name: "a word in the place of a field",
        script: "x = {}\nx.while = 1\n",
        text: "refused Unexpected at line 2 column 3\n",
        ..REFUSED
    },
    Row {
        name: "two equal signs apart",
        script: "x = {}\nx.f = = 1\n",
        text: "refused Unexpected at line 2 column 7\n",
        ..REFUSED
    },
    Row {
        name: "two numbers",
        script: "x = {}\nx.f = 1 2\n",
        text: "refused Unexpected at line 2 column 9\n",
        ..REFUSED
    },
    Row {
        name: "a number and a name",
        script: "x = {}\nx.f = 12ab\n",
        text: "refused Unexpected at line 2 column 9\n",
        ..REFUSED
    },
    Row {
        name: "a longer name than print",
        script: "x = {}\nprints(1)\n",
        text: "refused UnknownFunction at line 2 column 1\n",
        ..REFUSED
    },
    Row {
        name: "an open call",
        script: "x = {}\nprint(1\n)\n",
        text: "refused Unexpected at line 2 column 8\n",
        ..REFUSED
    },
    Row {
        name: "a number too large for a token",
        script: "x = {}\nx.f = 9223372036854775808\n",
        text: "refused WideNumber at line 2 column 7\n",
        ..REFUSED
    },
    Row {
        name: "a region with an argument",
        script: "x = Region(1)\n",
        text: "refused WrongArity at line 1 column 5\n",
        ..REFUSED
    },
    Row {
        name: "two functions of one name",
        script: "def f():\n    pass\ndef f():\n    pass\n",
        text: "refused DuplicateFunction at line 3 column 5\n",
        ..REFUSED
    },
    Row {
        name: "two parameters of one name",
        script: "def f(a, a):\n    pass\n",
        text: "refused DuplicateName at line 1 column 10\n",
        ..REFUSED
    },
];

/// The scripts that the language refuses.
pub fn refusal_rows() -> &'static [Row] {
    &ROWS
}
