ghost use Rattle.std.specs.Prelude.{◌≡◌};
ghost use Rattle.lf_app.specs.Words as spec;

use crate::ticks::ticks_of;
use crate::word_list::Word;
use lf_base::DEFAULT_TICKS;

/// What the program is asked to do with a script.
#[derive(Clone, Copy, Debug, PartialEq, Eq)]
pub enum Command {
    /// Runs it, and writes the text of the run. Main has so many ticks.
    Run { ticks: u64 },
    /// Reads it, and writes `script ok` or its refusal.
    Check,
    /// Reads it, and writes the listing of its code or its refusal.
    Code,
}

impl Command {
    // The command that a word names.
    fn named(word: &Word) -> Option<Command>
        ensures { result ≡ spec.command_named word.now }
    {
        if word.is("run") {
            Some(Command::Run {
                ticks: DEFAULT_TICKS,
            })
        } else if word.is("check") {
            Some(Command::Check)
        } else if word.is("code") {
            Some(Command::Code)
        } else {
            None
        }
    }

    // A run within the ticks that a number says.
    fn run_within(number: &[u8]) -> Option<Command>
        ensures { result ≡ spec.run_within number.now }
    {
        let ticks = ticks_of(number)?;
        Some(Command::Run { ticks })
    }

    // The command that two words are.
    fn of_two(word: &Word, option: &Word) -> Option<Command>
        ensures { result ≡ spec.command_of_two word.now option.now }
    {
        if !word.is("run") {
            return None;
        }
        let number = option.joined_value()?;
        Command::run_within(number)
    }

    // The command that three words are.
    fn of_three(word: &Word, option: &Word, number: &Word) -> Option<Command>
        ensures { result ≡ spec.command_of_three word.now option.now number.now }
    {
        if word.is("run") && option.is("--steps") {
            Command::run_within(number.as_bytes())
        } else {
            None
        }
    }

    /// The command that the words are: `run`, `check` or `code`, or `run` with the option
    /// `--steps N`, which may be one word too, as `--steps=N`. `None` comes exactly where they
    /// aren't in this form, or `N` is no number from 1 to `MOST_TICKS`.
    pub fn from_words(words: &[Word]) -> Option<Command>
        ensures { result ≡ spec.command_of words.now }
    {
        match words {
            [word] => Command::named(word),
            [word, option] => Command::of_two(word, option),
            [word, option, number] => Command::of_three(word, option, number),
            _ => None,
        }
    }
}
