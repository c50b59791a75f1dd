//! Laws of the bytes of the parts, each the contract of a function that does nothing.

ghost use Rattle.std.specs.Prelude.{◌≡◌, ◌↔◌, ◌<◌, ◌+◌, ℕ, List, Some, slice_index};
ghost use Rattle.edr_record.specs.Parts.{PrePart, CrashPart};
ghost use Rattle.edr_record.specs.declared.Profile.{Profile};
ghost use Rattle.edr_record.specs.declared.Profile.TheVariants.{Short};
ghost use Rattle.edr_record.specs.Bounds.{IsPre, IsCrash};
ghost use Rattle.edr_image.specs.declared.forms.CrashForm.{CrashForm};
ghost use Rattle.edr_image.specs.declared.forms.PreForm.{PreForm};
ghost use Rattle.edr_image.specs.declared.forms.TheConstants.{VERSION_1, VERSION_2};
ghost use Rattle.edr_image.specs.PartBytes.{pre_size, IsPreForm, HasProfile, HasSlots, IsPreBy, pre_damage_by, pre_at_by, crash_size, crash_damage_by, crash_at};
ghost use Rattle.edr_codec.specs.Laws.{CrashDamageIsFirst, CrashIsReadBack, CrashIsWrittenBack, OfBytes, PreDamageIsFirst, PreIsReadBack, PreIsWrittenBack, crash_range, further, pre_range};

/// Version 1 has a form in which parts can be told, with the slots of a record. Each part is short.
pub fn version_1_has_a_form()
    ensures form { IsPreForm VERSION_1.pre }
    ensures slots { HasSlots VERSION_1.pre }
    ensures profile { (p : Profile) → HasProfile VERSION_1.pre p ↔ (p ≡ Short) }
{}

/// So has version 2, with both profiles.
pub fn version_2_has_a_form()
    ensures form { IsPreForm VERSION_2.pre }
    ensures slots { HasSlots VERSION_2.pre }
    ensures profiles { (p : Profile) → HasProfile VERSION_2.pre p }
{}

/// Where each profile byte has as many slots as a record of its profile, the parts of the form are those of the records of
/// its profiles: in version 1 of the short records, in version 2 of all.
pub fn parts_are_of_records()
    ensures any { (form : PreForm) → IsPreForm form → HasSlots form → (p : PrePart)
        → IsPreBy form p ↔ (IsPre p × HasProfile form p.profile) }
    ensures version_1 { (p : PrePart) → IsPreBy VERSION_1.pre p ↔ (IsPre p × (p.profile ≡ Short)) }
    ensures version_2 { (p : PrePart) → IsPreBy VERSION_2.pre p ↔ IsPre p }
{}

/// In each form: the bytes of a pre part in its bounds are as many as the form has, they are whole, and they say this part.
pub fn pre_is_read_back()
    ensures { (form : PreForm) → IsPreForm form → (p : PrePart) → IsPreBy form p
        → PreIsReadBack form p }
{}

/// In each form: the bytes of a crash part in its bounds are as many as the form has, they are whole, and they say this
/// part.
pub fn crash_is_read_back()
    ensures { (form : CrashForm) (c : CrashPart) → IsCrash c → CrashIsReadBack form c }
{}

/// What whole bytes of a pre part say is in its bounds, and has these bytes. So each part has one spelling in each form.
pub fn pre_is_written_back()
    ensures { (form : PreForm) → IsPreForm form → OfBytes (pre_size form) (PreIsWrittenBack form) }
{}

/// What whole bytes of a crash part say is in its bounds, and has these bytes. So each part has one spelling in each form.
pub fn crash_is_written_back()
    ensures { (form : CrashForm) → OfBytes (crash_size form) (CrashIsWrittenBack form) }
{}

/// Bytes are damaged at a place exactly where the bytes before it begin a pre part in its bounds, and those up to and
/// with it begin none.
pub fn pre_damage_is_first()
    ensures { (form : PreForm) → IsPreForm form → OfBytes (pre_size form) (PreDamageIsFirst form) }
{}

/// Bytes are damaged at a place exactly where the bytes before it begin a crash part in its bounds, and those up to and
/// with it begin none.
pub fn crash_damage_is_first()
    ensures { (form : CrashForm) → OfBytes (crash_size form) (CrashDamageIsFirst form) }
{}

/// Where a pre part stands in further bytes, its own bytes tell what it says, whether it is damaged, and the byte that is
/// found there.
pub fn pre_is_told_by_its_bytes()
    ensures value { (form : PreForm) → IsPreForm form → (bytes : List ℕ) (at : ℕ)
        → pre_at_by form bytes at ≡ pre_at_by form (pre_range form bytes at) 0 }
    ensures damage { (form : PreForm) → IsPreForm form → (bytes : List ℕ) (at : ℕ)
        → pre_damage_by form bytes at ≡ further at (pre_damage_by form (pre_range form bytes at) 0) }
    ensures within { (form : PreForm) → IsPreForm form → (bytes : List ℕ) (k : ℕ) → pre_damage_by form bytes 0 ≡ Some k
        → k < pre_size form }
    ensures found { (form : PreForm) (bytes : List ℕ) (at k : ℕ) → k < pre_size form
        → slice_index bytes (at + k) ≡ slice_index (pre_range form bytes at) k }
{}

/// Where a crash part stands in further bytes, its own bytes tell what it says, whether it is damaged, and the byte that
/// is found there.
pub fn crash_is_told_by_its_bytes()
    ensures value { (form : CrashForm) (bytes : List ℕ) (at : ℕ)
        → crash_at bytes at ≡ crash_at (crash_range form bytes at) 0 }
    ensures damage { (form : CrashForm) (bytes : List ℕ) (at : ℕ)
        → crash_damage_by form bytes at ≡ further at (crash_damage_by form (crash_range form bytes at) 0) }
    ensures within { (form : CrashForm) (bytes : List ℕ) (k : ℕ) → crash_damage_by form bytes 0 ≡ Some k → k < crash_size form }
    ensures found { (form : CrashForm) (bytes : List ℕ) (at k : ℕ) → k < crash_size form
        → slice_index bytes (at + k) ≡ slice_index (crash_range form bytes at) k }
{}
