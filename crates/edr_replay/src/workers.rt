//! The workers of each cycle of a run by threads.

ghost use Rattle.std.specs.Prelude.{◌≤◌};

use std::sync::Arc;

/// On which runtime they are started, how many they are, 1 to 8, and the gate that each of them calls before an item's first offer.
#[derive(Drop)]
pub struct Workers<'a, R, G> {
    pub rt: &'a R,
    pub count: u8,
    pub gate: &'a Arc<G>,
    ghost within: { (1 ≤ count) × (count ≤ 8) },
}
