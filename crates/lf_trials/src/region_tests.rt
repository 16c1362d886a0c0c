// The calls of a table of regions.

use lf_base::ObjId;
use lf_regions::RegionTable;
use std::test::Fail;

const FIRST: ObjId = ObjId { birth: 1, seq: 9 };

const MIDDLE: ObjId = ObjId { birth: 2, seq: 1 };

const BETWEEN: ObjId = ObjId { birth: 2, seq: 3 };

const LAST: ObjId = ObjId { birth: 2, seq: 5 };

#[test]
fn names_rise(rt: HostRuntime) -> Result<(), Fail> {
    let mut table = RegionTable::new(rt.alloc())?;
    assert_eq!(rt; table.next_above(None), None);
    table.make(LAST)?;
    table.make(FIRST)?;
    table.make(MIDDLE)?;
    assert_eq!(rt; table.next_above(None), Some(FIRST));
    assert_eq!(rt; table.next_above(Some(FIRST)), Some(MIDDLE));
    assert_eq!(rt; table.next_above(Some(BETWEEN)), Some(LAST));
    assert_eq!(rt; table.next_above(Some(LAST)), None);
    Ok(())
}

#[test]
fn counts_and_marks(rt: HostRuntime) -> Result<(), Fail> {
    let mut table = RegionTable::new(rt.alloc())?;
    table.make(FIRST)?;
    table.borrow(FIRST, 3);
    table.unborrow(FIRST, 1);
    assert_eq!(rt; table.borrowed(FIRST), 2);
    table.unborrow(FIRST, 2);
    table.set_owned(FIRST, true);
    assert!(rt; table.is_owned(FIRST));
    table.set_owned(FIRST, false);
    table.end(FIRST);
    assert_eq!(rt; table.next_above(None), None);
    Ok(())
}
