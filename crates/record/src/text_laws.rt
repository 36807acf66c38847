//! What ties recordings and their texts together.

ghost use Rattle.std.specs.Prelude.{◌++◌, ◌≡◌, ◌≤◌, [], List, Option, Some, ℕ};
ghost use Rattle.record.specs.View.{RecordingView};
ghost use Rattle.record.specs.Text.{lines, text};
ghost use Rattle.record_lines.specs.declared.due.Due.TheVariants.{Header};
ghost use Rattle.record_lines.specs.declared.version.Version.{Version};
ghost use Rattle.record_lines.specs.declared.version.Version.TheVariants as version;
ghost use Rattle.record_lines.specs.Refused.{AreShort, IsOutside, IsRefused, IsWellFormed};
ghost use Rattle.record.specs.Recordable.{IsRecordable};
ghost use Rattle.record.specs.Versions.{HasTextIn};
ghost use Rattle.record_lines.specs.declared.fault.ReadKind.{ReadKind};

/// A recording's text, in each version that can tell it, is well formed from the first line to the last, no line of it is too
/// long, and only want of memory or a device that fails keeps it from being read.
pub fn a_text_is_read()
    ensures whole { (version : Version) (r : RecordingView) → IsRecordable r → HasTextIn version r → IsWellFormed (Some (text version r)) (Some []) }
    ensures short { (version : Version) (r : RecordingView) → IsRecordable r → HasTextIn version r → AreShort version (lines version r) }
    ensures refused { (version : Version) (r : RecordingView) (end : Option (List ℕ)) (line : ℕ) (kind : ReadKind) →
        IsRecordable r → HasTextIn version r → IsRefused (Some (text version r)) end 0 Header line kind → IsOutside kind }
{}

/// Bytes that are well formed from the first line to the last are the text of a recording, in one of the versions.
pub fn well_formed_bytes_are_a_text()
    ensures { (bytes : List ℕ) → IsWellFormed (Some bytes) (Some []) →
        (version : Version) × (r : RecordingView) × IsRecordable r × HasTextIn version r × (bytes ≡ text version r) }
{}

/// A text is the text of one recording at most, in one version, and no text is the beginning of another.
pub fn a_text_is_of_one_recording()
    ensures one { (v w : Version) (r s : RecordingView) → IsRecordable r → HasTextIn v r → IsRecordable s → HasTextIn w s →
        text v r ≡ text w s → (v ≡ w) × (r ≡ s) }
    ensures alone { (v w : Version) (r s : RecordingView) (rest : List ℕ) → IsRecordable r → HasTextIn v r → IsRecordable s → HasTextIn w s →
        text v r ≡ text w s ++ rest → (v ≡ w) × (r ≡ s) × (rest ≡ []) }
{}

/// Each recording has a text in version 2.
pub fn a_recording_has_a_text()
    ensures { (r : RecordingView) → IsRecordable r → HasTextIn version.Two r }
{}

/// Bytes have one refusal at most, want of memory and a device that fails aside, however many of them are left. Those that
/// are well formed from the first line to the last have none.
pub fn one_refusal_at_most()
    ensures one { (bytes : List ℕ) (end other_end : Option (List ℕ)) (line other_line : ℕ) (kind other_kind : ReadKind) →
        IsRefused (Some bytes) end 0 Header line kind → IsRefused (Some bytes) other_end 0 Header other_line other_kind →
        ¬ IsOutside kind → ¬ IsOutside other_kind → (line ≡ other_line) × (kind ≡ other_kind) }
    ensures none { (bytes : List ℕ) (after end : Option (List ℕ)) (line : ℕ) (kind : ReadKind) →
        IsWellFormed (Some bytes) after → IsRefused (Some bytes) end 0 Header line kind → IsOutside kind }
{}
