//! The lines of a summary, and their texts.
ghost use Rattle.std.specs.Prelude.{◌≡◌, ◌↔◌, ◌⊎◌, ◌++◌, IsTrue, OnOk, codes, decimal};
ghost use Rattle.std.specs.Fmt.{signed_decimal};
ghost use Rattle.ht_answer.specs.Answers.{HasAnswerText, number_line};
ghost use Rattle.ht_calc.specs.Summaries.{basis_size, shortened, HasSummedText, IsSummedRefusal, summed_text};

use ht_answer::{Answer, print};
use ht_text::write_size;
use ht_word::NoMemory;
use itoa::Buffer;

/// A line of a summary.
#[derive(Debug, Drop)]
pub enum Summed {
    /// The number of the sample.
    Sample(u64),
    /// The numbers of rows of the canonical pairs.
    Rows { a: usize, h: usize, c: usize },
    /// The numbers of words of the quasinormal bases.
    Bases { a: usize, c: usize },
    /// The elements a and c are conjugate.
    Conjugate,
    /// The i-th power of a and the j-th of c are conjugate.
    Powers { i: i128, j: i128 },
    /// What else the calculator answers.
    Answer(Answer),
}

impl Summed {
    // Whether the line is a refusal.
    fn is_refusal(&self) -> bool
        ensures { IsTrue result ↔ IsSummedRefusal self.now }
    {
        match self {
            Summed::Answer(answer) => answer.is_refusal(),
            _ => false,
        }
    }

    // Whether some were refused before or the line is a refusal.
    pub(crate) fn refuses_too(&self, some_refused: bool) -> bool
        ensures { IsTrue result ↔ (IsTrue some_refused ⊎ IsSummedRefusal self.now) }
    {
        some_refused || self.is_refusal()
    }
}

// The number of words of a basis that is the answer.
pub(crate) fn basis_size(answer: &Answer) -> Option<usize>
    ensures { result ≡ basis_size answer.now }
{
    match answer {
        Answer::Basis(words) => Some(words.len()),
        _ => None,
    }
}

// The answer without its rows.
pub(crate) fn shortened(answer: Answer) -> Summed
    requires { HasAnswerText answer }
    ensures short { result ≡ shortened answer }
    ensures text { HasSummedText result }
{
    match answer {
        Answer::Conjugate { .. } | Answer::NotKept { .. } => Summed::Conjugate,
        Answer::Powers { i, j, .. } => Summed::Powers { i, j },
        other => Summed::Answer(other),
    }
}

/// Appends the text of a line, with its line feed.
pub(crate) fn print_summed(line: &Summed, out: &mut Vec<u8>) -> Result<(), NoMemory>
    requires { HasSummedText line.now }
    ensures { OnOk result (out.new.items ≡ out.old.items ++ summed_text line.now) }
{
    match line {
        Summed::Sample(number) => write_line(b"sample ", *number as usize, out),
        Summed::Rows { a, h, c } => write_rows(*a, *h, *c, out),
        Summed::Bases { a, c } => write_bases(*a, *c, out),
        Summed::Conjugate => write_text(b"conjugate\n", out),
        Summed::Powers { i, j } => write_powers(*i, *j, out),
        Summed::Answer(answer) => print(answer, out),
    }
}

// Appends the line of the numbers of rows.
fn write_rows(a: usize, h: usize, c: usize, out: &mut Vec<u8>) -> Result<(), NoMemory>
    ensures { OnOk result (out.new.items ≡ out.old.items ++ (codes "rows " ++ decimal a ++ codes " " ++ decimal h ++ number_line (codes " ") c)) }
{
    write_number(b"rows ", a, out)?;
    write_number(b" ", h, out)?;
    write_line(b" ", c, out)
}

// Appends the line of the numbers of words of the bases.
fn write_bases(a: usize, c: usize, out: &mut Vec<u8>) -> Result<(), NoMemory>
    ensures { OnOk result (out.new.items ≡ out.old.items ++ (codes "basis " ++ decimal a ++ number_line (codes " ") c)) }
{
    write_number(b"basis ", a, out)?;
    write_line(b" ", c, out)
}

// Appends the line of two exponents.
fn write_powers(i: i128, j: i128, out: &mut Vec<u8>) -> Result<(), NoMemory>
    ensures { OnOk result (out.new.items ≡ out.old.items ++ (codes "power " ++ signed_decimal i ++ codes " " ++ signed_decimal j ++ codes "\n")) }
{
    write_text(b"power ", out)?;
    write_integer(i, out)?;
    write_text(b" ", out)?;
    write_integer(j, out)?;
    write_text(b"\n", out)
}

// Appends the end of a line: a text and a number.
fn write_line(text: &[u8], n: usize, out: &mut Vec<u8>) -> Result<(), NoMemory>
    ensures { OnOk result (out.new.items ≡ out.old.items ++ number_line text.now n) }
{
    write_number(text, n, out)?;
    write_text(b"\n", out)
}

// Appends a text and a number.
fn write_number(text: &[u8], n: usize, out: &mut Vec<u8>) -> Result<(), NoMemory>
    ensures { OnOk result (out.new.items ≡ out.old.items ++ (text.now ++ decimal n)) }
{
    write_text(text, out)?;
    write_size(n, out)
}

// Appends the digits of a number, behind a `-` where it is negative.
fn write_integer(n: i128, out: &mut Vec<u8>) -> Result<(), NoMemory>
    ensures { OnOk result (out.new.items ≡ out.old.items ++ signed_decimal n) }
{
    write_text(Buffer::new().format(n).as_bytes(), out)
}

// Appends a text.
fn write_text(text: &[u8], out: &mut Vec<u8>) -> Result<(), NoMemory>
    ensures { OnOk result (out.new.items ≡ out.old.items ++ text.now) }
{
    out.extend_from_slice(text)?;
    Ok(())
}
