//! Numbers of ticks, as the words of the command line write them.

ghost use Rattle.std.specs.Prelude.{◌≡◌};
ghost use Rattle.lf_app.specs.Words as spec;

use lf_base::MOST_TICKS;

fn is_digit(byte: u8) -> bool
    ensures { result ≡ spec.is_digit byte }
{
    matches!(byte, b'0'..=b'9')
}

/// The number of ticks that digits write. `None` comes exactly where other bytes stand among
/// them, or the number isn't from 1 to `MOST_TICKS`.
pub fn ticks_of(number: &[u8]) -> Option<u64>
    ensures { result ≡ spec.ticks_of number.now }
{
    let mut ticks: u64 = 0;
    for byte in number {
        if !is_digit(*byte) {
            return None;
        }
        ticks = 10 * ticks + u64::from(*byte - b'0');
        if ticks > MOST_TICKS {
            return None;
        }
    }
    if ticks == 0 {
        return None;
    }
    Some(ticks)
}
