//! Laws of a migration, the contract of a function that does nothing.

ghost use Rattle.std.specs.Prelude.{◌≡◌, ◌≤◌, ℕ, List, Some, None};
ghost use Rattle.edr_image.specs.Image.{View, header_of, old_header_refusal, old_view_of};
ghost use Rattle.edr_migrate.specs.Migrated.{AreShort, migrated_view};

/// Each event that is migrated has the profile short, as each event of an image of version 1 has. So a migration changes
/// nothing of what an image says.
pub fn migrated_events_are_short()
    ensures migrated { (v : View) → AreShort (migrated_view v).store.banks }
    ensures old { (old : List ℕ) (v : View) → old_view_of old ≡ Some v → AreShort v.store.banks }
    ensures same { (old : List ℕ) (v : View) → old_view_of old ≡ Some v → migrated_view v ≡ v }
{}

/// An image of version 1 has 2 to 16 banks, however many an image of a later version may have.
#[tactic(auto, unfolding(edr_image::specs::Image::header_refusal_by))]
pub fn old_images_have_at_most_16_banks()
    ensures { (old : List ℕ) → old_header_refusal old ≡ None → (2 ≤ (header_of old).banks) × ((header_of old).banks ≤ 16) }
{}
