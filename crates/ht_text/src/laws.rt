//! Laws of texts, each as the contract of a function that does nothing.
ghost use Rattle.std.specs.Prelude.{◌≡◌, ◌≤◌, ℕ, List, length};
ghost use Rattle.ht_word.specs.declared.shape.Shape.{Shape};
ghost use Rattle.ht_word.specs.declared.word.Word.{Word};
ghost use Rattle.ht_pair.specs.declared.row.Row.{Row};
ghost use Rattle.ht_pair.specs.Actions.{IsCanonical, IsCanonicalFor};
ghost use Rattle.ht_text.specs.Files.{IsFile, IsFileOf, file_text};
ghost use Rattle.ht_text.specs.Texts.{IsNum, HasText, HasRowsText, IsWord, IsRows, word_text, rows_text};

/// No text is the text of two numbers.
pub fn number_texts_are_one_number()
    ensures { (text : List ℕ) (m n : ℕ) → IsNum text m → IsNum text n → m ≡ n }
{}

/// No text is the text of two words.
pub fn word_texts_are_one_word()
    ensures read { (text : List ℕ) (u v : Word) → IsWord text u → IsWord text v → u ≡ v }
    ensures written { (u v : Word) → HasText u → HasText v → word_text u ≡ word_text v → u ≡ v }
{}

/// No text is the text of two lists of rows, and no rows have the empty text but none.
pub fn row_texts_are_one_list()
    ensures read { (text : List ℕ) (p q : List Row) → IsRows text p → IsRows text q → p ≡ q }
    ensures written { (p q : List Row) → HasRowsText p → HasRowsText q → rows_text p ≡ rows_text q → p ≡ q }
{}

/// No bytes are the file of two values.
pub fn files_are_one_value()
    ensures { (bytes : List ℕ) (n r m s : ℕ) (p q : List Row) → IsFile bytes n r p → IsFile bytes m s q → (n ≡ m) × (r ≡ s) × (p ≡ q) }
{}

/// An element's file is a file, and reading it gives the element back.
pub fn an_elements_file_is_read_back()
    ensures is_file { (shape : Shape) (rows : List Row) → IsCanonical shape rows → length rows ≤ 8192 → IsFile (file_text shape.n shape.r rows) shape.n shape.r rows }
    ensures given { (shape : Shape) (rows given : List Row) (bytes : List ℕ) → IsCanonical shape rows → length rows ≤ 8192 → bytes ≡ file_text shape.n shape.r rows → IsFileOf bytes shape given → given ≡ rows }
    ensures element { (shape : Shape) (rows given element : List Row) (bytes : List ℕ) → IsCanonical shape rows → length rows ≤ 8192 → bytes ≡ file_text shape.n shape.r rows → IsFileOf bytes shape given → IsCanonicalFor shape element given → element ≡ rows }
{}
