ghost use Rattle.std.specs.Prelude.{◌≡◌, ◌++◌, ◌∷◌, [], ◌⊎◌, Err, IfOk, IsOk};
ghost use Rattle.lf_parser.specs.declared.halt.Halt.TheVariants as halt;

use crate::halt::Halt;
use lf_base::Listed;

/// The list with one more item at its end.
pub fn with<T: Drop>(mut list: Listed<T>, item: T) -> Result<Listed<T>, Halt>
    ensures ok { IfOk result (λ longer. longer ≡ list ++ item ∷ []) }
    ensures err { result ≡ Err halt.OutOfMemory ⊎ IsOk result }
{
    match list.push(item) {
        Ok(()) => Ok(list),
        Err(_) => Err(Halt::OutOfMemory),
    }
}
