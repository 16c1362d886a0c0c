ghost use Rattle.std.specs.Prelude.{◌≡◌};
ghost use Rattle.lf_parser.specs.Parsers.{Reads};
ghost use Rattle.lf_parser.specs.ReadingFunctions as spec;
ghost use Rattle.lf_parser.specs.Limits.{part_fits};

use crate::cursor::Cursor;
use crate::halt::Halt;
use crate::lists::with;
use crate::name::Names;
use lf_lexer::Mark;
use std::alloc::Global;

/// A comma and one name more.
#[tactic(auto, unfolding(crate::specs::ReadingFunctions::more_name))]
fn more_name(cursor: &mut Cursor<'_>, names: Names) -> Result<Names, Halt>
    ensures { Reads (λ xs. xs) (spec.more_name part_fits names cursor.old) result cursor.new }
{
    cursor.separator(names.len())?;
    let name = cursor.name()?;
    with(names, name)
}

#[tactic(auto, using(crate::proofs::Rules::LoopSteps::more_name_unrolls, crate::proofs::Rules::LoopSteps::more_name_short))]
fn names_from(cursor: &mut Cursor<'_>, first: Names) -> Result<Names, Halt>
    ensures { Reads (λ xs. xs) (spec.names_from part_fits first cursor.old) result cursor.new }
{
    let mut names = first;
    while cursor.is_mark(Mark::Comma) {
        names = more_name(cursor, names)?;
    }
    Ok(names)
}

/// One name or more, with commas between them.
#[tactic(auto, unfolding(crate::specs::ReadingFunctions::name_list))]
pub fn names(alloc: Global, cursor: &mut Cursor<'_>) -> Result<Names, Halt>
    ensures { Reads (λ xs. xs) (spec.name_list part_fits cursor.old) result cursor.new }
{
    let name = cursor.name()?;
    let first = with(Names::new(alloc), name)?;
    names_from(cursor, first)
}

/// Names with commas between them, or none.
#[tactic(auto, unfolding(crate::specs::ReadingFunctions::some_names))]
pub fn some_names(alloc: Global, cursor: &mut Cursor<'_>) -> Result<Names, Halt>
    ensures { Reads (λ xs. xs) (spec.some_names part_fits cursor.old) result cursor.new }
{
    if cursor.is_name() {
        return names(alloc, cursor);
    }
    Ok(Names::new(alloc))
}
