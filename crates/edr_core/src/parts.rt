//! The commands of a cycle whose pre parts are made of parts that the slow sensors gave.

ghost use Rattle.std.specs.Prelude.{◌≡◌, ℕ};
ghost use Rattle.edr_items.specs.SensorLists.{SensorLists};
ghost use Rattle.edr_definitions.specs.Commands.{issues, commands};
ghost use Rattle.edr_core.specs.Parts.{parts_of, commands_with, issues_with, HaveTheFastItems};

/// The commands of a cycle are those of any lists with the same items of the fast sensors, once each pre part is made of the
/// cycle's own parts. So a core that is told no value of a slow sensor, and takes the parts of each time zero, issues them.
pub fn parts_make_the_commands()
    ensures commands { (f g : SensorLists) (n t : ℕ) → HaveTheFastItems f g → commands_with (parts_of f) g n t ≡ commands f n t }
    ensures ticks { (f g : SensorLists) (n t : ℕ) → HaveTheFastItems f g → issues_with (parts_of f) g n t ≡ issues f n t }
{}
