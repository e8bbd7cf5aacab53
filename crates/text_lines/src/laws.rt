//! What is printed reads back. Each law is a function with nothing to do.
ghost use Rattle.std.specs.Prelude.{◌≡◌, ◌^◌, ◌≤◌, ◌<◌, ℕ, List, [], ◌∷◌, ◌++◌, decimal, Some};
ghost use Rattle.text_lines.specs.Fields.{number_of, value_of, value_text, IsBytes};
ghost use Rattle.text_lines.specs.Lines.{fields_of, line_of_fields, parts_of, text_of_lines, AllLack};

/// A printed number reads back, where its type has room for it.
pub fn numbers_read_back()
    ensures { (limit n : ℕ) → limit ≤ 2 ^ 64 → n < limit → number_of limit (decimal n) ≡ Some n }
{}

/// A printed value reads back.
pub fn values_read_back()
    ensures { (bytes : List ℕ) → IsBytes bytes → value_of (value_text bytes) ≡ Some bytes }
{}

/// A printed line has the fields that it was printed from.
pub fn fields_come_apart()
    ensures { (first : List ℕ) (more : List (List ℕ)) → AllLack 32 (first ∷ more)
        → fields_of (line_of_fields (first ∷ more)) ≡ first ∷ more }
{}

/// A printed text has the lines that it was printed from, and nothing after the last newline.
pub fn lines_come_apart()
    ensures { (lines : List (List ℕ)) → AllLack 10 lines
        → parts_of (text_of_lines lines) ≡ lines ++ [] ∷ [] }
{}
