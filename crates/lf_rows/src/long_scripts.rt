use lf_base::OutOfMemory;
use std::alloc::Global;

/// A part of a script, so many times.
#[derive(Clone, Copy)]
pub struct Repeated {
    pub part: &'static str,
    pub times: usize,
}

/// A script in parts, and what `check` writes of it.
#[derive(Clone, Copy)]
pub struct LongScript {
    pub name: &'static str,
    pub parts: &'static [Repeated],
    pub text: &'static str,
}

// Scripts at the limits of the language, and past them.
static LONG_SCRIPTS: [LongScript; 8] = [
    LongScript {
        name: "64 groups, one in another",
        parts: &[
            Repeated {
                part: "x = ",
                times: 1,
            },
            Repeated {
                part: "(",
                times: 64,
            },
            Repeated {
                part: "1",
                times: 1,
            },
            Repeated {
                part: ")",
                times: 64,
            },
        ],
        text: "script ok\n",
    },
    LongScript {
        name: "65 groups",
        parts: &[
            Repeated {
                part: "x = ",
                times: 1,
            },
            Repeated {
                part: "(",
                times: 65,
            },
            Repeated {
                part: "1",
                times: 1,
            },
            Repeated {
                part: ")",
                times: 65,
            },
        ],
        text: "refused TooDeepExpr at line 1 column 69\n",
    },
    LongScript {
        name: "a line of 1,024 tokens",
        parts: &[
            Repeated {
                part: "x=1",
                times: 1,
            },
            Repeated {
                part: "+1",
                times: 510,
            },
        ],
        text: "script ok\n",
    },
    LongScript {
        name: "a line of 1,025 tokens",
        parts: &[
            Repeated {
                part: "x=1",
                times: 1,
            },
            Repeated {
                part: "+1",
                times: 511,
            },
        ],
        text: "refused TooManyParts at line 1 column 1025\n",
    },
    LongScript {
        name: "a sum as long as a script may be",
        parts: &[
            Repeated {
                part: "x=1",
                times: 1,
            },
            Repeated {
                part: "+1",
                times: 524_286,
            },
        ],
        text: "refused TooManyParts at line 1 column 1025\n",
    },
    LongScript {
        name: "fields of fields as long as a script may be, and no name after the last dot",
        parts: &[
            Repeated {
                part: "x",
                times: 1,
            },
            Repeated {
                part: ".f",
                times: 524_286,
            },
            Repeated {
                part: ".",
                times: 1,
            },
        ],
        text: "refused TooManyParts at line 1 column 1025\n",
    },
    LongScript {
        name: "32 elifs",
        parts: &[
            Repeated {
                part: "if True:\n    pass",
                times: 1,
            },
            Repeated {
                part: "\nelif True:\n    pass",
                times: 32,
            },
        ],
        text: "script ok\n",
    },
    LongScript {
        name: "33 elifs",
        parts: &[
            Repeated {
                part: "if True:\n    pass",
                times: 1,
            },
            Repeated {
                part: "\nelif True:\n    pass",
                times: 33,
            },
        ],
        text: "refused TooManyParts at line 67 column 1\n",
    },
];

/// The script that these parts make.
pub fn script_of(alloc: Global, parts: &[Repeated]) -> Result<String, OutOfMemory> {
    let mut script = String::new(alloc);
    for repeated in parts {
        for _turn in 0..repeated.times {
            script.push_str(repeated.part)?;
        }
    }
    Ok(script)
}

/// The scripts at the limits of the language, and past them.
pub fn long_scripts() -> &'static [LongScript] {
    &LONG_SCRIPTS
}
