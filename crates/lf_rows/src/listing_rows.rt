use crate::row::{LISTED, Moves, REFUSED, Row};
use lf_app::Status;

const FIRST_SCRIPT: &str = "x = {}\nx.f = 41 + 1\nprint(x.f)\n";

const FIRST_LISTING: &str = "body 0 main 0 1
0 1 tick
1 1 object
2 1 set 0
3 2 tick
4 2 get 0
5 2 text \"f\"
6 2 int 41
7 2 int 1
8 2 binary +
9 2 write
10 3 tick
11 3 get 0
12 3 text \"f\"
13 3 read
14 3 built print 1
15 3 pop
16 0 none
17 0 return
";

// A text of a quotation mark and a backslash, and a `when`.
const SPAWNING_SCRIPT: &str = "c = Cown(1)
x = \"\\\"\\\\\"
when c with x:
    print(x)";

const SPAWNING_LISTING: &str = "body 0 main 0 2
0 1 tick
1 1 int 1
2 1 built Cown 1
3 1 set 0
4 2 tick
5 2 text \"\\\"\\\\\"
6 2 set 1
7 3 tick
8 3 when 1 cowns 0 with 1
9 0 none
10 0 return
body 1 when 2 2
0 4 tick
1 4 get 1
2 4 built print 1
3 4 pop
4 0 none
5 0 return
";

// A function that calls itself, an `if` with an `elif`, a loop, and a call on a variable.
const BRANCHING_SCRIPT: &str = "def f(n):
    if n == 0 or not True:
        return -n
    elif n > 9 and False:
        return
    while n >= 2:
        n = f(n - 1)
    drop n
x = f(3)
y = move x[\"k\"]
close(y)";

const BRANCHING_LISTING: &str = "body 0 main 0 2
0 9 tick
1 9 int 3
2 9 call 1 1
3 9 set 0
4 10 tick
5 10 get 0
6 10 text \"k\"
7 10 remove
8 10 set 1
9 11 tick
10 11 ask close 1
11 11 pop
12 0 none
13 0 return
body 1 f 1 1
0 2 tick
1 2 get 0
2 2 int 0
3 2 binary ==
4 2 or 8
5 2 bool True
6 2 unary not
7 2 test
8 2 unless 14
9 3 tick
10 3 get 0
11 3 unary -
12 3 return
13 2 jump 25
14 4 tick
15 4 get 0
16 4 int 9
17 4 binary >
18 4 and 21
19 4 bool False
20 4 test
21 4 unless 25
22 5 tick
23 5 none
24 5 return
25 6 tick
26 6 tick
27 6 get 0
28 6 int 2
29 6 binary >=
30 6 unless 38
31 7 tick
32 7 get 0
33 7 int 1
34 7 binary -
35 7 call 1 1
36 7 set 0
37 6 jump 26
38 8 tick
39 8 drop 0
40 0 none
41 0 return
";

// Scripts under `code`.
static ROWS: [Row; 9] = [
    Row {
        name: "code: empty",
        text: "body 0 main 0 0\n0 0 none\n1 0 return\n",
        ..LISTED
    },
    Row {
        name: "code: first_sum",
        script: FIRST_SCRIPT,
        text: FIRST_LISTING,
        ..LISTED
    },
    Row {
        name: "code: a when",
        script: SPAWNING_SCRIPT,
        text: SPAWNING_LISTING,
        ..LISTED
    },
    Row {
        name: "code: a function with branches and a loop",
        script: BRANCHING_SCRIPT,
        text: BRANCHING_LISTING,
        ..LISTED
    },
    Row {
        name: "code: a slow sink",
        script: FIRST_SCRIPT,
        sink: Moves {
            most: 1,
            failing: &[],
        },
        text: FIRST_LISTING,
        ..LISTED
    },
    Row {
        name: "code: a sink that fails within a word",
        script: FIRST_SCRIPT,
        sink: Moves {
            most: 3,
            failing: &[1],
        },
        text: "bod",
        status: Status::WriteFault,
        ..LISTED
    },
    Row {
        name: "code: a bad byte",
        words: &["code"],
        script: "x = !",
        text: "refused BadByte at line 1 column 5\n",
        ..REFUSED
    },
    Row {
        name: "code: a token that is unexpected",
        words: &["code"],
        script: "1 = 2",
        text: "refused Unexpected at line 1 column 3\n",
        ..REFUSED
    },
    Row {
        name: "code: an unknown function",
        words: &["code"],
        script: "f(1)",
        text: "refused UnknownFunction at line 1 column 1\n",
        ..REFUSED
    },
];

/// The scripts under `code`.
pub fn listing_rows() -> &'static [Row] {
    &ROWS
}
