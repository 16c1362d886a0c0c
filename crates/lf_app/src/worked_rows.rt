//! Short words, texts and code on which the definitions are tried. Each function has an empty
//! body; its clause is the row.

ghost use Rattle.lf_app.specs.WorkedRows.{FirstUnbuiltShows, StepsShow, TextShows, WrongStepsShow};

/// The ticks of a run are said in two ways.
pub fn steps()
    ensures { StepsShow }
{}

/// Other words say none.
pub fn wrong_steps()
    ensures { WrongStepsShow }
{}

/// What was printed stands between the heading and the closing line.
pub fn text()
    ensures { TextShows }
{}

/// The first line with a form that doesn't run yet is the least, in whatever body it stands.
pub fn first_unbuilt()
    ensures { FirstUnbuiltShows }
{}
