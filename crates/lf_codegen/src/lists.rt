ghost use Rattle.std.specs.Prelude.{◌≡◌, ◌++◌, ◌∷◌, [], OnErr, OnOk};

use lf_base::{Listed, OutOfMemory};

/// Adds an item at the end of a list. No clause says when `OutOfMemory` comes; the list is then as it
/// was.
pub fn push<T: Drop>(list: &mut Listed<T>, item: T) -> Result<(), OutOfMemory>
    ensures ok { OnOk result (list.new ≡ list.old ++ item ∷ []) }
    ensures unchanged { OnErr result (list.new ≡ list.old) }
{
    match list.push(item) {
        Ok(()) => Ok(()),
        Err(_) => Err(OutOfMemory),
    }
}
