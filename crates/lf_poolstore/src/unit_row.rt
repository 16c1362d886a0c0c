ghost use Rattle.std.specs.Prelude.{◌≡◌, false, true};
ghost use Rattle.lf_pool.specs.declared.cell.TheConstants.{NONE};
ghost use Rattle.lf_poolstore.specs.UnitRows.{is_live};

use lf_base::ObjId;
use lf_pool::NONE;

/// What a unit keeps of a row: its name, its count of edges, the first cell of its fields
/// or `NONE`, and their number.
#[derive(Clone, Copy, Debug)]
pub struct UnitRow {
    pub name: ObjId,
    pub refs: u64,
    pub fields: u32,
    pub width: u32,
}

impl UnitRow {
    /// A row without fields.
    pub fn new(name: ObjId, refs: u64) -> UnitRow
        ensures row { result ≡ record { name = name; refs = refs; fields = NONE; width = 0 } }
        ensures live { is_live result ≡ true }
    {
        UnitRow {
            name,
            refs,
            fields: NONE,
            width: 0,
        }
    }

    /// What stands at the number of a row that is gone: no row has a first cell and no
    /// fields.
    pub fn gone() -> UnitRow
        ensures { is_live result ≡ false }
    {
        UnitRow {
            name: ObjId { birth: 0, seq: 0 },
            refs: 0,
            fields: 0,
            width: 0,
        }
    }

    /// Whether it is a row that is there.
    #[inline(always)]
    pub fn is_live(self) -> bool
        ensures { result ≡ is_live self }
    {
        self.width > 0 || self.fields == NONE
    }
}
