//! Answers and refusals.
ghost use Rattle.std.specs.Prelude.{◌↔◌, IsTrue};
ghost use Rattle.ht_answer.specs.Answers.{IsRefusal};

use ht_pair::Rows;
use ht_types::{Kinds, Order, Ponds, Profile};
use ht_word::{Name, Words};

/// The answer to a line.
#[derive(Debug, Drop)]
pub enum Answer {
    /// To a blank line, which has no text.
    Blank,
    /// To `group`: the two numbers given.
    Group { n: u32, r: u32 },
    /// The rows asked for: a canonical pair, or where the words under a word are sent.
    Pair(Rows),
    /// To `let`: the name, and the number of rows of its canonical pair.
    Let { name: Name, rows: usize },
    /// To `load`: the name, and the number of rows of its canonical pair.
    Load { name: Name, rows: usize },
    /// To `equal`: whether the two elements act alike.
    Equal(bool),
    /// To `basis`: the words of the basis asked for, at least one.
    Basis(Words),
    /// To `order`: the order, which is never `Order::Wide` here; that is a refusal.
    Order(Order),
    /// To `types`: the words of the basis asked for, at least one, and the kind of each.
    Types { words: Words, kinds: Kinds },
    /// To `profile`: the profile.
    Profile(Profile),
    /// To `parts`: the numbers of rows of the canonical pairs of the two parts.
    Parts { periodic: usize, infinite: usize },
    /// To `conj`: the canonical pair of an element that conjugates the first into the second.
    Conjugate { rows: Rows },
    /// To `conj`: the same, where the element is too large to be kept, and the letters of its longest
    /// word.
    NotKept { letters: usize, rows: Rows },
    /// To `conj`: no element conjugates the first into the second.
    NotConjugate,
    /// To `ponds`: all ponds, in order of their first words.
    Ponds(Ponds),
    /// To `share`: the number that the two words share an orbit by.
    Share(Option<i128>),
    /// To `power`: `by` conjugates the i-th power of the first into the j-th of the second.
    Powers { i: i128, j: i128, by: Rows },
    /// To `power`: no power of the first but the identity is conjugate to a power of the second.
    NoPowers,
    /// The line changed nothing.
    Refused(Refusal),
}

/// Why a line is refused.
#[derive(Debug, Drop)]
pub enum Refusal {
    /// The line isn't in the grammar: the first column, from 1, at which no line goes on.
    Syntax(usize),
    /// A group is set already, its numbers are outside the limits, or none is set yet.
    Group,
    /// The name isn't bound.
    Name(Name),
    /// There is no room for one more name.
    Names,
    /// The file couldn't be read.
    File,
    /// The bytes of the file are no file of an element: 0 for more than 4,194,304 bytes, else 1 plus
    /// the greatest number of leading whole lines that lead some file.
    Form(usize),
    /// The file is of another group.
    Shape,
    /// The row of this number, from 1, is the first with a word that isn't of the group's shape.
    RowsForeign(usize),
    /// The `from` words of the rows aren't a basis.
    RowsFrom,
    /// The `to` words of the rows aren't a basis.
    RowsTo,
    /// An exponent of the line, the order asked for, or a number that the powers' answer asks for, is
    /// more than 2^127-1 in absolute value.
    Wide,
    /// An element that the line makes has more than 8,192 rows or a word of more than 1,024
    /// letters: the first such one's number of rows, and the letters of its longest word.
    Large { rows: usize, letters: usize },
    /// The word of this number on the line, from 1, is the first that isn't of the group's shape.
    Word(u8),
    /// The quasinormal basis of the element of this name takes more expansions than the budget has.
    Budget(Name),
    /// The word of this number on the line, from 1, is the first that isn't under the quasinormal
    /// basis of the element.
    Above(u8),
}

impl Answer {
    /// Whether the answer is a refusal. Constant time; takes no memory.
    pub fn is_refusal(&self) -> bool
        ensures { IsTrue result ↔ IsRefusal self.now }
    {
        matches!(self, Answer::Refused(_))
    }
}
