//! What was proved of verdicts, whatever calls the program.

ghost use Rattle.std.specs.Prelude.{◌≡◌, ℕ, List};
ghost use Rattle.lf_app.specs.declared.commands.Command.{Command};
ghost use Rattle.lf_app.specs.Verdicts.{IsVerdict, Verdict};

/// Under each command each list of bytes has just one verdict. So the words and the script
/// determine the text, the journal and the status, but for what fails and want of memory.
pub fn one_verdict()
    ensures there { (command : Command) (bytes : List ℕ) → (verdict : Verdict) × IsVerdict command bytes verdict }
    ensures once { (command : Command) (bytes : List ℕ) (v w : Verdict) → IsVerdict command bytes v → IsVerdict command bytes w → v ≡ w }
{}
