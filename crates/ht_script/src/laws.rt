//! Laws of the grammar, each as the contract of a function that does nothing.
ghost use Rattle.std.specs.Prelude.{◌≡◌, ℕ, List};
ghost use Rattle.ht_script.specs.declared.line.Line.{Line};
ghost use Rattle.ht_script.specs.Lines.{IsLine};

/// No bytes are the text of two lines.
pub fn line_texts_are_one_line()
    ensures { (bytes : List ℕ) (first second : Line) → IsLine bytes first → IsLine bytes second → first ≡ second }
{}
