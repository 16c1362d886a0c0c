use crate::row::{RAN, Row};

// Scripts that run to their end.
static ROWS: [Row; 30] = [
    Row {
        name: "empty",
        script: "",
        text: "[0]\ndone 1 behaviours 0 faults\n",
        ..RAN
    },
    Row {
        name: "first_sum",
        script: "x = {}\nx.f = 41 + 1\nprint(x.f)\n",
        text: "[0]\n42\ndone 1 behaviours 0 faults\n",
        ..RAN
    },
    Row {
        name: "two fields and a rewritten one",
        script: "x = {}\nx.a = 7\nx.b = x.a\nx.a = 1 + 2\nprint(x.b)\nprint(x.a)\n",
        text: "[0]\n7\n3\ndone 1 behaviours 0 faults\n",
        ..RAN
    },
    Row {
        name: "only blank lines",
        script: " \n\n   ",
        text: "[0]\ndone 1 behaviours 0 faults\n",
        ..RAN
    },
    Row {
        name: "no line feed at the end",
        script: "x = {}\nprint(1)",
        text: "[0]\n1\ndone 1 behaviours 0 faults\n",
        ..RAN
    },
    Row {
        name: "spaces between tokens and at the ends",
        script: "  \nprint   = {  }  \n\nprint . a=0012+ 3 \nprint ( print.a )\n   ",
        text: "[0]\n15\ndone 1 behaviours 0 faults\n",
        ..RAN
    },
    Row {
        name: "names with digits and underscores",
        script: "_1 = {}\n_1.a_9 = 5\n_1.A = _1.a_9\nprint(_1.A)\n",
        text: "[0]\n5\ndone 1 behaviours 0 faults\n",
        ..RAN
    },
    Row {
        name: "carriage returns before line feeds",
        script: "x = {}\r\nx.f = 1\r\nprint(x.f)\r\n",
        text: "[0]\n1\ndone 1 behaviours 0 faults\n",
        ..RAN
    },
    Row {
        name: "comments",
        script: "# first\nx = {}\nx.f = 1 # one\n  # more\nprint(x.f)\n",
        text: "[0]\n1\ndone 1 behaviours 0 faults\n",
        ..RAN
    },
    Row {
        name: "a field by its text",
        script: "x = {}\nx[\"f\"] = 2\nprint(x.f)\n",
        text: "[0]\n2\ndone 1 behaviours 0 faults\n",
        ..RAN
    },
    Row {
        name: "a text and a number as keys differ",
        script: "x = {}\nx[\"1\"] = 2\nx[1] = 3\nprint(x[\"1\"], x[1])\n",
        text: "[0]\n2 3\ndone 1 behaviours 0 faults\n",
        ..RAN
    },
    Row {
        name: "groups",
        script: "x = {}\nx.f = ((1) + (2))\nprint((x.f))\n",
        text: "[0]\n3\ndone 1 behaviours 0 faults\n",
        ..RAN
    },
    Row {
        name: "an object made again",
        script: "x = {}\nx = {}\nprint(x)\n",
        text: "[0]\nobject 0.2\ndone 1 behaviours 0 faults\n",
        ..RAN
    },
    Row {
        name: "the largest number",
        script: "print(9223372036854775807, -9223372036854775807 - 1)\n",
        text: "[0]\n9223372036854775807 -9223372036854775808\ndone 1 behaviours 0 faults\n",
        ..RAN
    },
    Row {
        name: "quotients round toward zero",
        script: "print(-7 / 2, -7 % 2, 7 / -2, 7 % -2)\n",
        text: "[0]\n-3 -1 -3 1\ndone 1 behaviours 0 faults\n",
        ..RAN
    },
    Row {
        name: "the least number by -1 leaves no rest",
        script: "x = -9223372036854775807 - 1\nprint(x % -1)\n",
        text: "[0]\n0\ndone 1 behaviours 0 faults\n",
        ..RAN
    },
    Row {
        name: "values of all kinds",
        script: "print(None, True, False, -5, \"a\\\"b\", {}, Region())\n",
        text: "[0]\nNone True False -5 a\"b object 0.1 object 0.2\ndone 1 behaviours 0 faults\n",
        ..RAN
    },
    Row {
        name: "print without an argument",
        script: "print()\n",
        text: "[0]\n\ndone 1 behaviours 0 faults\n",
        ..RAN
    },
    Row {
        name: "values of different kinds differ",
        script: "print(1 == True, \"1\" == 1, None == False, 2 == 2, {} == {})\n",
        text: "[0]\nFalse False False True False\ndone 1 behaviours 0 faults\n",
        ..RAN
    },
    Row {
        name: "what needn't be looked at isn't",
        script: "print(False and 1, True or 1, True and False)\n",
        text: "[0]\nFalse True False\ndone 1 behaviours 0 faults\n",
        ..RAN
    },
    Row {
        name: "elif",
        script: "x = 2\nif x == 1:\n    print(1)\nelif x == 2:\n    print(2)\nelse:\n    print(3)\n",
        text: "[0]\n2\ndone 1 behaviours 0 faults\n",
        ..RAN
    },
    Row {
        name: "a loop",
        script: "x = 0\nwhile x < 3:\n    x = x + 1\n    print(x)\n",
        text: "[0]\n1\n2\n3\ndone 1 behaviours 0 faults\n",
        ..RAN
    },
    Row {
        name: "a function without return",
        script: "def f(a):\n    print(a)\nprint(f(1))\n",
        text: "[0]\n1\nNone\ndone 1 behaviours 0 faults\n",
        ..RAN
    },
    Row {
        name: "a return ends main",
        script: "print(1)\nreturn\nprint(2)\n",
        text: "[0]\n1\ndone 1 behaviours 0 faults\n",
        ..RAN
    },
    Row {
        name: "a function that is never called",
        script: "\ndef f():\n    pass\ndef g():\n    return f()\n",
        text: "[0]\ndone 1 behaviours 0 faults\n",
        ..RAN
    },
    Row {
        name: "a field that is taken",
        script: "x = {}\nx.a = 1\nx.b = 2\nprint(move x.a, x.b)\n",
        text: "[0]\n1 2\ndone 1 behaviours 0 faults\n",
        ..RAN
    },
    Row {
        name: "a variable that is moved",
        script: "x = {}\ny = move x\ny.f = 1\nprint(y.f)\n",
        text: "[0]\n1\ndone 1 behaviours 0 faults\n",
        ..RAN
    },
    Row {
        name: "a variable named Cown",
        script: "Cown = 1\nprint(Cown)\n",
        text: "[0]\n1\ndone 1 behaviours 0 faults\n",
        ..RAN
    },
    Row {
        name: "198 calls, one in another",
        script: "def f(n):\n    if n == 0:\n        return 0\n    return f(n - 1) + 1\nprint(f(198))\n",
        text: "[0]\n198\ndone 1 behaviours 0 faults\n",
        ..RAN
    },
    Row {
        name: "examples: factorials",
        script: "# Factorials, by a function that calls itself.\ndef factorial(n):\n    if n < 2:\n        return 1\n    return n * factorial(n - 1)\nn = 1\nwhile n <= 5:\n    print(n, factorial(n))\n    n = n + 1\n",
        text: "[0]\n1 1\n2 2\n3 6\n4 24\n5 120\ndone 1 behaviours 0 faults\n",
        ..RAN
    },
];

/// The scripts that run to their end.
pub fn run_rows() -> &'static [Row] {
    &ROWS
}
