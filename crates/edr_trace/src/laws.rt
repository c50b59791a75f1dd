//! A law of the limit, the contract of a function that does nothing.

ghost use Rattle.std.specs.Prelude.{◌≡◌};
ghost use Rattle.edr_spell.specs.Spell.{largest_trace};

use crate::LARGEST_TRACE;

/// The limit of the code is that of the definitions.
pub fn the_limit_is_defined()
    ensures { LARGEST_TRACE ≡ largest_trace }
{}
