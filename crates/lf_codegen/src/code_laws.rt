//! What holds of the meaning of scripts and of their code.

ghost use Rattle.lf_codegen.specs.RunOne.{CodeMeansTree};
ghost use Rattle.std.specs.Prelude.{ℕ, List};
ghost use Rattle.lf_base.specs.Texts.{Text};
ghost use Rattle.lf_parser.specs.declared.name.Name.{Name};
ghost use Rattle.lf_parser.specs.Plain.{PlainBlock, PlainTree};
ghost use Rattle.lf_codegen.specs.GeneratedCode.{body_code, program_of};
ghost use Rattle.lf_code.specs.Operations.{HasOperands};
ghost use Rattle.lf_codegen.specs.Numbers.{PlainScript};
ghost use Rattle.lf_code.specs.Ticked.{Ticked};
ghost use Rattle.lf_code.specs.ValidCode.{ValidCode};
ghost use Rattle.lf_codegen.specs.ScriptReading.{IsRead};
ghost use Rattle.lf_codegen.specs.TextsNamed.{IsFitForCode};

/// The code of each script does what the script's tree means, whatever the task and the ticks.
pub fn code_means_tree()
    ensures { CodeMeansTree }
{}

/// The code of each script takes a tick wherever it goes back.
pub fn code_is_ticked()
    ensures { (s : PlainScript) → Ticked (program_of s) }
{}

/// Each address of a body that is reached has one number of operands, and enough of them.
pub fn code_has_operands()
    ensures { (s : PlainScript) (vars : List Name) (k : PlainBlock) → HasOperands (body_code s vars k) }
{}

/// Each script that `read` answers is fit for code: its names and calls are right, each text
/// that its tree names is among its texts, and no two `when`s stand on one line.
pub fn read_scripts_are_fit()
    ensures { (bytes : List ℕ) (texts : List Text) (tree : PlainTree) → IsRead bytes texts tree
        → IsFitForCode (record { texts = texts; tree = tree }) }
{}

/// The code of a script is valid, where its names and calls are right, its texts are there, and
/// no two `when`s stand on one line.
pub fn code_is_valid()
    ensures { (s : PlainScript) → IsFitForCode s → ValidCode (program_of s) }
{}
