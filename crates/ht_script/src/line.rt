//! Lines.
ghost use Rattle.std.specs.Prelude.{◌≡◌, ◌+◌, suc, ℕ, IfOk, IsErrOf};
ghost use Rattle.ht_text.specs.Fronts.{IsLongestFront};
ghost use Rattle.ht_script.specs.declared.line.LineFault.TheVariants as fault;
ghost use Rattle.ht_script.specs.Lines.{IsLine, IsNoLine, IsLineText};

use crate::factor::Factors;
use crate::front::line_front;
use crate::value::read_value;
use ht_pair::Rows;
use ht_word::{Name, NoMemory, Word};
use std::alloc::Global;
use thiserror::Error;

/// A line of the grammar.
#[derive(Debug, Drop)]
pub enum Line {
    /// Only spaces, or a comment.
    Blank,
    /// `group` and the two numbers n and r, each at most 9999.
    Group {
        n: u32,
        r: u32,
    },
    /// `reduce` and its rows.
    Reduce(Rows),
    /// `let`, a name, `=` and rows.
    LetRows {
        name: Name,
        rows: Rows,
    },
    /// `let`, a name, `=` and factors, at least one, in their order.
    LetProduct {
        name: Name,
        factors: Factors,
    },
    /// `show` and a name.
    Show(Name),
    /// `equal` and two names.
    Equal(Name, Name),
    /// `image`, a name and a word.
    Image {
        name: Name,
        word: Word,
    },
    /// `load`, a name and the name of a file.
    Load {
        name: Name,
        file: Name,
    },
    /// `basis` and a name.
    Basis(Name),
    /// `order` and a name.
    Order(Name),
    /// `types` and a name.
    Types(Name),
    /// `profile` and a name.
    Profile(Name),
    /// `ponds` and a name.
    Ponds(Name),
    /// `share`, a name and two words.
    Share {
        name: Name,
        first: Word,
        second: Word,
    },
    /// `parts` and three names: those for the two parts, then the element's.
    Parts {
        periodic: Name,
        infinite: Name,
        whole: Name,
    },
    /// `conj` and three names: the conjugator's, then those of the two elements.
    Conj {
        bound: Name,
        first: Name,
        second: Name,
    },
    /// `power` and two names.
    Power {
        first: Name,
        second: Name,
    },
}

/// Why bytes give no line.
#[derive(Clone, Copy, Debug, PartialEq, Eq, Error)]
pub enum LineFault {
    /// They are the text of no line. The column counts from 1: it is that of the first byte that
    /// no line has behind the bytes before it, or the one behind the last byte.
    #[error("syntax fault in column {column}")]
    Syntax { column: usize },
    /// No memory was found.
    #[error("out of memory")]
    NoMemory,
}

impl From<NoMemory> for LineFault {
    ghost from_gives = { λ _ e. e ≡ fault.NoMemory };

    fn from(_: NoMemory) -> Self {
        LineFault::NoMemory
    }
}

/// The line that the bytes are the text of. Any bytes are taken. Linear in the bytes: at most
/// twenty-four passes over them; the memory is that of the rows, the names and the factors.
pub fn read_line(alloc: Global, line: &[u8]) -> Result<Line, LineFault>
    ensures line { IfOk result (IsLine line.now) }
    ensures syntax { (column : ℕ) → IsErrOf result (LineFault.Syntax column)
        → IsNoLine line.now × (k : ℕ) × (column ≡ suc k) × IsLongestFront IsLineText line.now k }
{
    let Some(value) = read_value(alloc, line)? else {
        return Err(LineFault::Syntax {
            column: line_front(line) + 1,
        });
    };
    Ok(value)
}
