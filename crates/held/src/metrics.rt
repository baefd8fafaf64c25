//! Metrics inside their lists.
ghost use Rattle.std.specs.Prelude.{◌≡◌};
ghost use Rattle.held.specs.Metrics.{metrics_lie};

use glyph::{Lists, places_of};

/// Whether so many full metrics, and so many bearings behind them, lie inside their lists.
// Two numbers: the forme, which has them as one, stands above this crate.
pub fn metrics_lie(full: u32, tail: u32, lists: &Lists) -> bool
    ensures { result ≡ metrics_lie full tail lists.now }
{
    full as usize <= places_of(&lists.full) && tail as usize <= places_of(&lists.tail)
}
