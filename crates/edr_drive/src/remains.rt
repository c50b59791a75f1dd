//! What is left of a cycle whose slow sensors kept their own samples, once all threads have ended.

ghost use Rattle.std.specs.Prelude.{◌≡◌, ℕ};
ghost use Rattle.edr_items.specs.SensorLists.{horizon_of};
ghost use Rattle.edr_definitions.specs.Commands.{issues};
ghost use Rattle.edr_core.specs.Captures.{no_captures};
ghost use Rattle.edr_cycle.specs.Remaining.{Remains};
ghost use Rattle.edr_loops.specs.UnsentOrders.{issues_out};
ghost use Rattle.edr_loops.specs.Recorders.{DeskStands};
ghost use Rattle.edr_drive.specs.Left.{WhereStands};

use edr_core::Captures;
use edr_cycle::Remaining;
use edr_items::Feeds;
use edr_loops::Desk;

/// What is left of the feeds past what the desk took, to be done by one thread with captures that keep nothing yet. The slow sensors
/// kept their own items: all of these are left.
pub fn rest_after<'a>(desk: &Desk, feeds: &'a Feeds, captures: Captures) -> Remaining<'a>
    requires empty { captures ≡ no_captures }
    ensures remains { WhereStands feeds.now desk.now
        (λ _. Remains feeds.now desk.now.core.cycle desk.now.core result) }
    ensures cycle { (n : ℕ)
        → DeskStands n (horizon_of feeds.now) desk.now → desk.now.core.cycle ≡ n }

    // What was sent, and then what is held, is what the cycle issues up to the closed tick.
    ensures issued { WhereStands feeds.now desk.now (λ n.
        issues feeds.now n desk.now.core.closed ≡ issues_out desk.now.outbox desk.now.held) }
{
    Remaining::after(
        feeds,
        desk.last.along,
        desk.last.across,
        desk.last.restraint,
        captures,
    )
}
