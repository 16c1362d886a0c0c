use crate::row::{FAULTED, RAN, Row};

// Scripts that end by a fault, and some that just don't.
static ROWS: [Row; 21] = [
    Row {
        name: "F1",
        script: "x = 1\ndrop x\nprint(x)\n",
        text: "[0]\nfault F1 Unset at line 3\ndone 1 behaviours 1 faults\n",
        ..FAULTED
    },
    Row {
        name: "F2",
        script: "x = 1\nprint(x.f)\n",
        text: "[0]\nfault F2 NotObject at line 2\ndone 1 behaviours 1 faults\n",
        ..FAULTED
    },
    Row {
        name: "F3",
        script: "x = {}\nprint(x.f)\n",
        text: "[0]\nfault F3 NoField at line 2\ndone 1 behaviours 1 faults\n",
        ..FAULTED
    },
    Row {
        name: "F3: a field that is written later",
        script: "x = {}\nx.f = x.g\nx.g = 1\n",
        text: "[0]\nfault F3 NoField at line 2\ndone 1 behaviours 1 faults\n",
        ..FAULTED
    },
    Row {
        name: "F3: a comparison",
        script: "x = {}\nx.f == 1\n",
        text: "[0]\nfault F3 NoField at line 2\ndone 1 behaviours 1 faults\n",
        ..FAULTED
    },
    Row {
        name: "F12",
        script: "x = {}\nprint(borrowed(x))\n",
        text: "[0]\nfault F12 NotBridge at line 2\ndone 1 behaviours 1 faults\n",
        ..FAULTED
    },
    Row {
        name: "F15",
        script: "print(1 + True)\n",
        text: "[0]\nfault F15 Kind at line 1\ndone 1 behaviours 1 faults\n",
        ..FAULTED
    },
    Row {
        name: "F15: a truth value as a key",
        script: "x = {}\nx[True] = 1\n",
        text: "[0]\nfault F15 Kind at line 2\ndone 1 behaviours 1 faults\n",
        ..FAULTED
    },
    Row {
        name: "F15: a test",
        script: "if 1:\n    pass\n",
        text: "[0]\nfault F15 Kind at line 1\ndone 1 behaviours 1 faults\n",
        ..FAULTED
    },
    Row {
        name: "wide_numbers",
        script: "print(9223372036854775807 + 1)\n",
        text: "[0]\nfault F16 Overflow at line 1\ndone 1 behaviours 1 faults\n",
        ..FAULTED
    },
    Row {
        name: "F16: the least number by -1",
        script: "x = -9223372036854775807 - 1\nprint(x / -1)\n",
        text: "[0]\nfault F16 Overflow at line 2\ndone 1 behaviours 1 faults\n",
        ..FAULTED
    },
    Row {
        name: "F17",
        script: "print(1)\nx = 1 / 0\nprint(2)\n",
        text: "[0]\n1\nfault F17 ZeroDivisor at line 2\ndone 1 behaviours 1 faults\n",
        ..FAULTED
    },
    Row {
        name: "F18",
        script: "def f():\n    return f()\nf()\n",
        text: "[0]\nfault F18 TooDeep at line 2\ndone 1 behaviours 1 faults\n",
        ..FAULTED
    },
    Row {
        name: "F18: 199 calls, one in another",
        script: "def f(n):\n    if n == 0:\n        return 0\n    return f(n - 1) + 1\nprint(f(199))\n",
        text: "[0]\nfault F18 TooDeep at line 4\ndone 1 behaviours 1 faults\n",
        ..FAULTED
    },
    Row {
        name: "ticks",
        words: &["run", "--steps", "10"],
        script: "while True:\n    pass\n",
        text: "[0]\nfault F21 OutOfTicks at line 2\ndone 1 behaviours 1 faults\n",
        ..FAULTED
    },
    Row {
        name: "ticks: one more",
        words: &["run", "--steps", "11"],
        script: "while True:\n    pass\n",
        text: "[0]\nfault F21 OutOfTicks at line 1\ndone 1 behaviours 1 faults\n",
        ..FAULTED
    },
    Row {
        name: "ticks: in one word",
        words: &["run", "--steps=10"],
        script: "while True:\n    pass\n",
        text: "[0]\nfault F21 OutOfTicks at line 2\ndone 1 behaviours 1 faults\n",
        ..FAULTED
    },
    Row {
        name: "ticks: leading zeros",
        words: &["run", "--steps", "0000000000000000000000000000011"],
        script: "while True:\n    pass\n",
        text: "[0]\nfault F21 OutOfTicks at line 1\ndone 1 behaviours 1 faults\n",
        ..FAULTED
    },
    Row {
        name: "ticks: just enough",
        words: &["run", "--steps", "2"],
        script: "print(1)\nprint(2)\n",
        text: "[0]\n1\n2\ndone 1 behaviours 0 faults\n",
        ..RAN
    },
    Row {
        name: "ticks: one too few",
        words: &["run", "--steps", "1"],
        script: "print(1)\nprint(2)\n",
        text: "[0]\n1\nfault F21 OutOfTicks at line 2\ndone 1 behaviours 1 faults\n",
        ..FAULTED
    },
    Row {
        name: "ticks: the most",
        words: &["run", "--steps=1000000000"],
        script: "print(1)\n",
        text: "[0]\n1\ndone 1 behaviours 0 faults\n",
        ..RAN
    },
];

/// The scripts that end by a fault, and some that just don't.
pub fn fault_rows() -> &'static [Row] {
    &ROWS
}
