//! The law of fields.
ghost use Rattle.std.specs.Prelude.{◌≡◌, ◌<◌, List, ℕ, Ok, get_or};
ghost use Rattle.gz_codec.specs.declared.field.FieldKind.{FieldKind};
ghost use Rattle.gz_codec.specs.Spelling.{Fields, FitEach, fields};
ghost use Rattle.gz_codec.specs.Reading.{fields_at};

/// Whatever the kinds of fields that stand one after another: fields that are read are spelled as the bytes are, and
/// fit; and fields that fit are read from their spelling. So no fields have two spellings.
pub fn fields_have_one_spelling()
    ensures read_as_spelled { (kinds : List FieldKind) (first : ℕ) (bytes : List ℕ)
        (values : Fields kinds) → ((i : ℕ) → get_or bytes i 0 < 256) →
        fields_at kinds first bytes ≡ Ok values → (bytes ≡ fields kinds values) × FitEach kinds values }
    ensures spelled_as_read { (kinds : List FieldKind) (first : ℕ) (values : Fields kinds) →
        FitEach kinds values →
        fields_at kinds first (fields kinds values) ≡ Ok values }
{}
