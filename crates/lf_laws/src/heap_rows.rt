//! Worked rows of the calls on a state: each is computed from the definitions. Each
//! function has an empty body; its clause is the row.

ghost use Rattle.lf_laws.specs.HeapRows.{ContentsShow, DroppingShows, FieldsShow, MakingShows, PopShows, QuestionsShow};
ghost use Rattle.lf_laws.specs.HeapRows.{RegionsShow, SlotsShow};

/// Slots are copied, moved and unset, and a region's counts follow them.
pub fn slots()
    ensures { SlotsShow }
{}

/// An operand that goes drops what it alone held.
pub fn pops()
    ensures { PopShows }
{}

/// A cycle of local objects lives on; a region without owner and borrow goes.
pub fn dropping()
    ensures { DroppingShows }
{}

/// A read and a take leave the value, and are refused in their order.
pub fn fields()
    ensures { FieldsShow }
{}

/// Each refusal of a cown's content, and a content that comes and goes.
pub fn contents()
    ensures { ContentsShow }
{}

/// The most objects and cowns, and an open region before their number.
pub fn makings()
    ensures { MakingShows }
{}

/// Regions that are merged, dissolved, closed and frozen.
pub fn regions()
    ensures { RegionsShow }
{}

/// Each question, and each answer's value.
pub fn questions()
    ensures { QuestionsShow }
{}
