ghost use Rattle.std.specs.Prelude.{◌≡◌, IfOk};
ghost use Rattle.std.specs.Option.{option_copied};
ghost use Rattle.std.specs.Str.{bytes_eq};
ghost use Rattle.lf_app.specs.Words.{joined_value};

use lf_base::OutOfMemory;
use std::alloc::Global;
use std::marker::Model;

/// A word of the command line, which contracts see as the list of its bytes.
#[derive(Debug, Drop)]
pub struct Word {
    text: String,
}

impl Model for Word {
    ghost use Rattle.std.specs.Prelude.{List, ℕ, string_bytes};

    ghost Value = { List ℕ };

    ghost view = { λ word. string_bytes word.text };
}

impl Word {
    /// The word that is spelled like a text.
    pub fn from_text(alloc: Global, text: &str) -> Result<Word, OutOfMemory>
        ensures { IfOk result (λ word. word ≡ text.now) }
    {
        let text = String::from_str(alloc, text)?;
        Ok(Word { text })
    }

    /// Whether the word is spelled like a text.
    pub fn is(&self, text: &str) -> bool
        ensures { result ≡ bytes_eq self.now text.now }
    {
        self.text.as_str() == text
    }

    /// The bytes of the word.
    pub fn as_bytes(&self) -> &[u8]
        ensures { result.now ≡ self.now }
    {
        self.text.as_bytes()
    }

    /// What follows `--steps=` in the word. `None` comes exactly where it doesn't begin so.
    pub fn joined_value(&self) -> Option<&[u8]>
        ensures { option_copied result ≡ joined_value self.now }
    {
        self.text.as_bytes().strip_prefix("--steps=".as_bytes())
    }
}
