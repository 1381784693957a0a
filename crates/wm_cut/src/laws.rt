//! Laws of lines.
ghost use Rattle.std.specs.Prelude.{◌≡◌, ◌++◌, ◌∷◌, [], ℕ, List, None, Some};
ghost use Rattle.wm_cut.specs.Lines.{behind_line, first_line, lines_in, rest_in};

/// The first line comes first whatever bytes follow, and the other lines and the rest are those of what is behind it.
pub fn first_line_comes_first()
    ensures lines { (bytes line later : List ℕ) → first_line bytes ≡ Some line
        → lines_in (bytes ++ later) ≡ line ∷ lines_in (behind_line bytes ++ later) }
    ensures rest { (bytes line later : List ℕ) → first_line bytes ≡ Some line
        → rest_in (bytes ++ later) ≡ rest_in (behind_line bytes ++ later) }
{}

/// Where there is no first line there is no line at all, and all bytes are the rest.
pub fn no_line_is_all_rest()
    ensures { (bytes : List ℕ) → first_line bytes ≡ None → (lines_in bytes ≡ []) × (rest_in bytes ≡ bytes) }
{}

/// Bytes are their first line, its line feed and what is behind it.
pub fn first_line_is_in_front()
    ensures { (bytes line : List ℕ) → first_line bytes ≡ Some line → bytes ≡ line ++ (10 ∷ behind_line bytes) }
{}

/// The lines of bytes that come in two pieces are those of the first piece, and then those of its rest with the second;
/// the rest is that of these.
pub fn pieces_are_one()
    ensures lines { (bytes more : List ℕ) → lines_in (bytes ++ more) ≡ lines_in bytes ++ lines_in (rest_in bytes ++ more) }
    ensures rest { (bytes more : List ℕ) → rest_in (bytes ++ more) ≡ rest_in (rest_in bytes ++ more) }
{}
