//! The text of the answer to `types`.
ghost use Rattle.std.specs.Prelude.{◌≡◌, ◌++◌, All, OnOk, OnErr, codes, decimal, length};
ghost use Rattle.std.specs.List.{flat_map, zip};
ghost use Rattle.ht_text.specs.Texts.{IsDigitLetter, HasText};
ghost use Rattle.ht_text.specs.Writes.{AddsFront};
ghost use Rattle.ht_answer.specs.declared.answer.Answer.{Answer};
ghost use Rattle.ht_answer.specs.Answers.{answer_text};
ghost use Rattle.ht_answer.specs.KindTexts.{HasWholeText, HasReachText, HasKindText, HasTypesText, reached_text, reach_text, turn_text, kind_text, entry_text, later_entry_text, types_text};

use ht_text::{write_joined, write_letters, write_natural, write_word};
use ht_types::{Kind, Kinds, Reach};
use ht_word::{Letters, NoMemory, Word, Words};

// Appends the answer to `types`.
pub(crate) fn print_types(words: &Words, kinds: &Kinds, out: &mut Vec<u8>) -> Result<(), NoMemory>
    requires { HasTypesText words.now kinds.now }
    ensures ok { OnOk result (out.new.items ≡ out.old.items ++ answer_text (Answer.Types words.now kinds.now)) }
    ensures err { OnErr result (AddsFront out.old.items out.new.items (answer_text (Answer.Types words.now kinds.now))) }
{
    write_types(words.as_slice(), kinds.as_slice(), out)?;
    out.push(b'\n')?;
    Ok(())
}

// Appends the entries of words with their kinds, with a `;` between any two.
fn write_types(words: &[Word], kinds: &[Kind], out: &mut Vec<u8>) -> Result<(), NoMemory>
    requires { HasTypesText words.now kinds.now }
    ensures ok { OnOk result (out.new.items ≡ out.old.items ++ types_text words.now kinds.now) }
    ensures err { OnErr result (AddsFront out.old.items out.new.items (types_text words.now kinds.now)) }
{
    let Some((word, words_behind)) = words.split_first() else {
        return Ok(());
    };
    let Some((kind, kinds_behind)) = kinds.split_first() else {
        return Ok(());
    };
    write_entry(words, word, kind, out)?;
    write_others(words, words_behind, kinds_behind, out)
}

// Appends the entries of the last of all words, each behind a `;`.
fn write_others(
    all: &[Word],
    words: &[Word],
    kinds: &[Kind],
    out: &mut Vec<u8>,
) -> Result<(), NoMemory>
    requires as_many { length kinds.now ≡ length words.now }
    requires words { All HasText words.now }
    requires kinds { All (HasKindText all.now) kinds.now }
    ensures ok { OnOk result (out.new.items ≡ out.old.items ++ flat_map (later_entry_text all.now) (zip words.now kinds.now)) }
    ensures err { OnErr result (AddsFront out.old.items out.new.items (flat_map (later_entry_text all.now) (zip words.now kinds.now))) }
{
    for (place, word) in words.iter().enumerate() {
        write_later(all, word, &kinds[place], out)?;
    }
    Ok(())
}

// Appends an entry behind a `;`.
fn write_later(all: &[Word], word: &Word, kind: &Kind, out: &mut Vec<u8>) -> Result<(), NoMemory>
    requires word { HasText word.now }
    requires kind { HasKindText all.now kind.now }
    ensures ok { OnOk result (out.new.items ≡ out.old.items ++ later_entry_text all.now (word.now, kind.now)) }
    ensures err { OnErr result (AddsFront out.old.items out.new.items (later_entry_text all.now (word.now, kind.now))) }
{
    out.push(b';')?;
    write_entry(all, word, kind, out)
}

// Appends an entry: a word and its kind.
fn write_entry(all: &[Word], word: &Word, kind: &Kind, out: &mut Vec<u8>) -> Result<(), NoMemory>
    requires word { HasText word.now }
    requires kind { HasKindText all.now kind.now }
    ensures ok { OnOk result (out.new.items ≡ out.old.items ++ entry_text all.now (word.now, kind.now)) }
    ensures err { OnErr result (AddsFront out.old.items out.new.items (entry_text all.now (word.now, kind.now))) }
{
    write_word(word, out)?;
    out.push(b' ')?;
    write_kind(all, kind, out)
}

// Appends a kind.
fn write_kind(all: &[Word], kind: &Kind, out: &mut Vec<u8>) -> Result<(), NoMemory>
    requires { HasKindText all.now kind.now }
    ensures ok { OnOk result (out.new.items ≡ out.old.items ++ kind_text all.now kind.now) }
    ensures err { OnErr result (AddsFront out.old.items out.new.items (kind_text all.now kind.now)) }
{
    match kind {
        Kind::Cycle { m } => write_cycle(*m, out),
        Kind::Attractor { m, by } => write_turn(b"attractor ", *m, by, out),
        Kind::Repeller { m, by } => write_turn(b"repeller ", *m, by, out),
        Kind::Passing { ahead, behind } => write_passing(all, ahead, behind, out),
    }
}

// Appends the kind of a cycle.
fn write_cycle(m: u64, out: &mut Vec<u8>) -> Result<(), NoMemory>
    ensures ok { OnOk result (out.new.items ≡ out.old.items ++ (codes "cycle " ++ decimal m)) }
    ensures err { OnErr result (AddsFront out.old.items out.new.items (codes "cycle " ++ decimal m)) }
{
    out.extend_from_slice(b"cycle ")?;
    write_natural(m as u128, out)
}

// Appends the kind of an attractor or a repeller: its name, the number and the letters.
fn write_turn(name: &[u8], m: u64, by: &Letters, out: &mut Vec<u8>) -> Result<(), NoMemory>
    requires { All IsDigitLetter by.now }
    ensures ok { OnOk result (out.new.items ≡ out.old.items ++ (name.now ++ turn_text m by.now)) }
    ensures err { OnErr result (AddsFront out.old.items out.new.items (name.now ++ turn_text m by.now)) }
{
    out.extend_from_slice(name)?;
    write_natural(m as u128, out)?;
    out.push(b' ')?;
    write_letters(by.as_slice(), out)
}

// Appends the kind of a passing word.
fn write_passing(
    all: &[Word],
    ahead: &Option<Reach>,
    behind: &Option<Reach>,
    out: &mut Vec<u8>,
) -> Result<(), NoMemory>
    requires ahead { HasReachText all.now ahead.now }
    requires behind { HasReachText all.now behind.now }
    ensures ok { OnOk result (out.new.items ≡ out.old.items ++ kind_text all.now (Kind.Passing ahead.now behind.now)) }
    ensures err { OnErr result (AddsFront out.old.items out.new.items (kind_text all.now (Kind.Passing ahead.now behind.now))) }
{
    out.extend_from_slice(b"passing ")?;
    write_reach(all, ahead, out)?;
    out.push(b' ')?;
    write_reach(all, behind, out)
}

// Appends a reach, or `-` for none.
fn write_reach(all: &[Word], found: &Option<Reach>, out: &mut Vec<u8>) -> Result<(), NoMemory>
    requires { HasReachText all.now found.now }
    ensures ok { OnOk result (out.new.items ≡ out.old.items ++ reach_text all.now found.now) }
    ensures err { OnErr result (AddsFront out.old.items out.new.items (reach_text all.now found.now)) }
{
    let Some(reach) = found else {
        out.push(b'-')?;
        return Ok(());
    };
    write_reached(all, reach, out)
}

// Appends a reach: its steps and the whole word reached.
fn write_reached(all: &[Word], reach: &Reach, out: &mut Vec<u8>) -> Result<(), NoMemory>
    requires { HasWholeText all.now reach.now }
    ensures ok { OnOk result (out.new.items ≡ out.old.items ++ reached_text all.now reach.now) }
    ensures err { OnErr result (AddsFront out.old.items out.new.items (reached_text all.now reach.now)) }
{
    write_natural(reach.steps, out)?;
    out.push(b':')?;
    write_joined(&all[reach.to], reach.rest.as_slice(), out)
}
