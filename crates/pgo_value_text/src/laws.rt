// Laws of the texts of values.
ghost use Rattle.std.specs.Prelude.{◌≡◌, ℕ, List};
ghost use Rattle.pgo_base.specs.Data.{Data};
ghost use Rattle.pgo_model.specs.ValueText.{value_text};
ghost use Rattle.pgo_value_text.specs.IsValueText.{IsValueText};
ghost use Rattle.pgo_value_text.specs.Writable.{IsWritable};

/// The canonical text of each value that may be written is a text of it: of one that is at most 1,024 deep, whose strings
/// have only newlines, tabs and bytes 32 to 126, whose model values are identifiers of at most 512 bytes, and no part of
/// which has more than 65,536 members. So what `write_value` wrote of it is read back by `read_value`.
pub fn canonical_text_is_value_text()
    ensures { (d : Data) → IsWritable d → IsValueText (value_text d) d }
{}

/// A text is a text of at most one value.
pub fn one_value_of_text()
    ensures { (text : List ℕ) (d e : Data) → IsValueText text d → IsValueText text e → d ≡ e }
{}
