//! The words and the signs of the language.

ghost use Rattle.std.specs.Prelude.{◌≡◌, map};
ghost use Rattle.lf_lexer.specs.Marks as spec;

use crate::tokens::Mark;

/// A word of the language, which is no name.
struct Word {
    text: &'static str,
    mark: Mark,
}

const WORDS: [Word; 17] = [
    Word {
        text: "and",
        mark: Mark::And,
    },
    Word {
        text: "def",
        mark: Mark::Def,
    },
    Word {
        text: "drop",
        mark: Mark::Drop,
    },
    Word {
        text: "elif",
        mark: Mark::Elif,
    },
    Word {
        text: "else",
        mark: Mark::Else,
    },
    Word {
        text: "False",
        mark: Mark::False,
    },
    Word {
        text: "if",
        mark: Mark::If,
    },
    Word {
        text: "move",
        mark: Mark::Move,
    },
    Word {
        text: "None",
        mark: Mark::None,
    },
    Word {
        text: "not",
        mark: Mark::Not,
    },
    Word {
        text: "or",
        mark: Mark::Or,
    },
    Word {
        text: "pass",
        mark: Mark::Pass,
    },
    Word {
        text: "return",
        mark: Mark::Return,
    },
    Word {
        text: "True",
        mark: Mark::True,
    },
    Word {
        text: "when",
        mark: Mark::When,
    },
    Word {
        text: "while",
        mark: Mark::While,
    },
    Word {
        text: "with",
        mark: Mark::With,
    },
];

/// The word that these bytes are, if they are one.
#[tactic(auto, unfolding(crate::specs::Marks::word_of))]
pub fn word_of(bytes: &[u8]) -> Option<Mark>
    ensures { result ≡ spec.word_of bytes.now }
{
    mark_among(bytes, &WORDS)
}

fn mark_among(bytes: &[u8], words: &[Word]) -> Option<Mark>
    ensures { result ≡ spec.mark_among bytes.now (map (λ word. word.text.now) words.now) (map (λ word. word.mark) words.now) }
{
    for word in words {
        if bytes == word.text.as_bytes() {
            return Some(word.mark);
        }
    }
    None
}

/// The sign of one byte, if the byte is one.
#[tactic(auto, unfolding(crate::specs::Marks::short_sign))]
pub fn short_sign(byte: u8) -> Option<Mark>
    ensures { result ≡ spec.short_sign byte }
{
    match byte {
        b'(' => Some(Mark::OpenParen),
        b')' => Some(Mark::CloseParen),
        b'[' => Some(Mark::OpenSquare),
        b']' => Some(Mark::CloseSquare),
        b'{' => Some(Mark::OpenBrace),
        b'}' => Some(Mark::CloseBrace),
        b',' => Some(Mark::Comma),
        b':' => Some(Mark::Colon),
        b'.' => Some(Mark::Dot),
        b'=' => Some(Mark::Assign),
        b'<' => Some(Mark::Less),
        b'>' => Some(Mark::Greater),
        b'+' => Some(Mark::Plus),
        b'-' => Some(Mark::Minus),
        b'*' => Some(Mark::Star),
        b'/' => Some(Mark::Slash),
        b'%' => Some(Mark::Percent),
        _ => None,
    }
}

/// The sign of two bytes, if they are one.
#[tactic(auto, unfolding(crate::specs::Marks::long_sign))]
pub fn long_sign(byte: u8, next: u8) -> Option<Mark>
    ensures { result ≡ spec.long_sign byte next }
{
    if next != b'=' {
        return None;
    }
    match byte {
        b'=' => Some(Mark::Equal),
        b'!' => Some(Mark::NotEqual),
        b'<' => Some(Mark::LessEqual),
        b'>' => Some(Mark::GreaterEqual),
        _ => None,
    }
}
