use crate::long_scripts::Repeated;

/// A script that runs for long before a fault ends it, and its text in parts.
#[derive(Clone, Copy)]
pub struct LongRun {
    pub name: &'static str,
    pub words: &'static [&'static str],
    pub script: &'static str,
    pub text: &'static [Repeated],
}

// 116,508 lines of nine bytes fill the output but for four bytes.
static FULL_OUTPUT: LongRun = LongRun {
    name: "F20",
    words: &["run"],
    script: "while True:\n    print(\"abcdefgh\")\n",
    text: &[
        Repeated {
            part: "[0]\n",
            times: 1,
        },
        Repeated {
            part: "abcdefgh\n",
            times: 116_508,
        },
        Repeated {
            part: "fault F20 OutputFull at line 2\ndone 1 behaviours 1 faults\n",
            times: 1,
        },
    ],
};

static MOST_OBJECTS: LongRun = LongRun {
    name: "F19",
    words: &["run", "--steps", "3000000"],
    script: "while True:\n    x = {}\n",
    text: &[Repeated {
        part: "[0]\nfault F19 TooManyObjects at line 2\ndone 1 behaviours 1 faults\n",
        times: 1,
    }],
};

/// A script that prints until its output is full.
pub fn full_output() -> &'static LongRun {
    &FULL_OUTPUT
}

/// A script that makes objects until it may make no more.
pub fn most_objects() -> &'static LongRun {
    &MOST_OBJECTS
}
