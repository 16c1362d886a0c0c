ghost use Rattle.std.specs.Prelude.{◌≡◌, None};
ghost use Rattle.lf_codegen.specs.Earliest.{earliest};
ghost use Rattle.lf_codegen.specs.NameRefusals.{refusals_at};
ghost use Rattle.lf_parser.specs.TreeNames.{place_before};

use lf_base::{Place, Refusal, RefusalKind};
use lf_parser::Name;

// Whether a place stands before another one, by line and then by column.
fn place_is_before(place: Place, other: Place) -> bool
    ensures { result ≡ place_before place other }
{
    place.line < other.line || place.line == other.line && place.column < other.column
}

/// Of the refusals that were noted, the one that stands first.
#[derive(Debug, Drop)]
pub struct FirstRefusal {
    pub refusal: Option<Refusal>,
}

impl FirstRefusal {
    /// No refusal was noted.
    pub fn new() -> FirstRefusal
        ensures { result.refusal ≡ None }
    {
        FirstRefusal { refusal: None }
    }

    /// Notes a refusal of this kind at a name, where there is one.
    pub fn note(&mut self, kind: Option<RefusalKind>, name: Name)
        ensures { self.new.refusal ≡ earliest self.old.refusal (refusals_at kind name) }
    {
        let Some(kind) = kind else {
            return;
        };
        let place = name.place;
        match self.refusal {
            Some(first) if !place_is_before(place, first.place) => {}
            _ => self.refusal = Some(Refusal { kind, place }),
        }
    }
}
