//! The rows of a trace, counted by what its sensors give.
ghost use Rattle.std.specs.Prelude.{◌≡◌, ◌+◌, ◌≤◌};
ghost use Rattle.edr_large.specs.Rows.{items_in, most_items};

use edr_items::{Feeds, SENSORS};

/// How many rows spell a cycle with these feeds: one for each item, and one before and one after them.
pub(crate) fn rows_of(feeds: &Feeds) -> u64
    requires { items_in feeds.now ≤ most_items }
    ensures { result ≡ items_in feeds.now + 2 }
{
    let mut rows = 2;
    for sensor in SENSORS {
        rows += feeds.of(sensor).len() as u64;
    }
    rows
}
