//! The line that bytes are the text of.
ghost use Rattle.std.specs.Prelude.{◌≡◌, ℕ, List, IfOk, MatchOption, codes};
ghost use Rattle.ht_word.specs.declared.word.Word.{Word};
ghost use Rattle.ht_pair.specs.declared.row.Row.{Row};
ghost use Rattle.ht_script.specs.Tokens.{◌▸◌, Is, IsSpaces, IsToken};
ghost use Rattle.ht_script.specs.Lines.{IsNumber, AreRows, IsNamed, IsWritten, IsFileNamed, IsLine, IsNoLine};
ghost use Rattle.ht_script.specs.Slots.{HasOneName, IsUnmarked, Reads};

use crate::Line;
use crate::command::Command;
use crate::factor::read_factors;
use crate::file::read_file;
use crate::name::read_name;
use crate::token::{behind_mark, count_before, first_token, is_equals, only_spaces};
use ht_pair::Rows;
use ht_text::{read_num, read_rows, read_word};
use ht_word::{Name, NoMemory, Word};
use std::alloc::Global;

// The line that the bytes are the text of. At most twelve passes over them.
pub(crate) fn read_value(alloc: Global, line: &[u8]) -> Result<Option<Line>, NoMemory>
    ensures { IfOk result (λ found. MatchOption found (IsNoLine line.now) (IsLine line.now)) }
{
    let Some(text) = behind_mark(line) else {
        return read_command(alloc, line);
    };
    if count_before(text, b'\n') < text.len() {
        return Ok(None);
    }
    Ok(Some(Line::Blank))
}

// The same for bytes that no comment begins with.
fn read_command(alloc: Global, line: &[u8]) -> Result<Option<Line>, NoMemory>
    requires { IsUnmarked line.now }
    ensures { IfOk result (λ found. MatchOption found (IsNoLine line.now) (IsLine line.now)) }
{
    let Some((_, token, rest)) = first_token(line) else {
        return Ok(Some(Line::Blank));
    };
    let Some(command) = Command::of_keyword(token) else {
        return Ok(None);
    };
    read_behind(alloc, command, rest)
}

// The line that the command's word and the bytes behind it make.
fn read_behind(alloc: Global, command: Command, bytes: &[u8]) -> Result<Option<Line>, NoMemory>
    ensures { IfOk result (Reads command bytes.now) }
{
    match command {
        Command::Group => Ok(read_group(bytes)),
        Command::Reduce => read_reduce(alloc, bytes),
        Command::Let => read_let(alloc, bytes),
        Command::Equal => read_equal(alloc, bytes),
        Command::Image => read_image(alloc, bytes),
        Command::Load => read_load(alloc, bytes),
        Command::Parts => read_parts(alloc, bytes),
        Command::Conj => read_conj(alloc, bytes),
        Command::Share => read_share(alloc, bytes),
        Command::Power => read_power(alloc, bytes),
        Command::Show | Command::Basis | Command::Order => read_named(alloc, command, bytes),
        Command::Types | Command::Profile | Command::Ponds => read_named(alloc, command, bytes),
    }
}

// The line of `group` and the bytes behind it. Two passes over them.
fn read_group(bytes: &[u8]) -> Option<Line>
    ensures { Reads Command.Group bytes.now result }
{
    let Some((n, r)) = read_two_numbers(bytes) else {
        return None;
    };
    Some(Line::Group { n, r })
}

// The line of `reduce` and the bytes behind it. Five passes over them.
fn read_reduce(alloc: Global, bytes: &[u8]) -> Result<Option<Line>, NoMemory>
    ensures { IfOk result (Reads Command.Reduce bytes.now) }
{
    let Some(rows) = read_last_rows(alloc, bytes)? else {
        return Ok(None);
    };
    Ok(Some(Line::Reduce(rows)))
}

// The line of `let` and the bytes behind it. At most ten passes over them.
fn read_let(alloc: Global, bytes: &[u8]) -> Result<Option<Line>, NoMemory>
    ensures { IfOk result (Reads Command.Let bytes.now) }
{
    let Some((name, behind)) = read_bound_name(alloc, bytes)? else {
        return Ok(None);
    };
    if let Some(rows) = read_last_rows(alloc, behind)? {
        return Ok(Some(Line::LetRows { name, rows }));
    }
    let Some(factors) = read_factors(alloc, behind)? else {
        return Ok(None);
    };
    Ok(Some(Line::LetProduct { name, factors }))
}

// The line of a command with one name and the bytes behind its word. Two passes over them.
fn read_named(alloc: Global, command: Command, bytes: &[u8]) -> Result<Option<Line>, NoMemory>
    requires { HasOneName command }
    ensures { IfOk result (Reads command bytes.now) }
{
    let Some(name) = read_last_name(alloc, bytes)? else {
        return Ok(None);
    };
    Ok(match command {
        Command::Show => Some(Line::Show(name)),
        Command::Basis => Some(Line::Basis(name)),
        Command::Order => Some(Line::Order(name)),
        Command::Types => Some(Line::Types(name)),
        Command::Profile => Some(Line::Profile(name)),
        Command::Ponds => Some(Line::Ponds(name)),
        Command::Group | Command::Reduce | Command::Let | Command::Equal | Command::Power => None,
        Command::Image | Command::Load | Command::Parts | Command::Conj | Command::Share => None,
    })
}

// The line of `equal` and the bytes behind it. Three passes over them.
fn read_equal(alloc: Global, bytes: &[u8]) -> Result<Option<Line>, NoMemory>
    ensures { IfOk result (Reads Command.Equal bytes.now) }
{
    let Some((first, second)) = read_two_names(alloc, bytes)? else {
        return Ok(None);
    };
    Ok(Some(Line::Equal(first, second)))
}

// The line of `image` and the bytes behind it. Three passes over them.
fn read_image(alloc: Global, bytes: &[u8]) -> Result<Option<Line>, NoMemory>
    ensures { IfOk result (Reads Command.Image bytes.now) }
{
    let Some((name, rest)) = read_first_name(alloc, bytes)? else {
        return Ok(None);
    };
    let Some(word) = read_last_word(alloc, rest)? else {
        return Ok(None);
    };
    Ok(Some(Line::Image { name, word }))
}

// The line of `load` and the bytes behind it. Three passes over them.
fn read_load(alloc: Global, bytes: &[u8]) -> Result<Option<Line>, NoMemory>
    ensures { IfOk result (Reads Command.Load bytes.now) }
{
    let Some((name, rest)) = read_first_name(alloc, bytes)? else {
        return Ok(None);
    };
    let Some(file) = read_last_file(alloc, rest)? else {
        return Ok(None);
    };
    Ok(Some(Line::Load { name, file }))
}

// The line of `parts` and the bytes behind it. Three passes over them.
fn read_parts(alloc: Global, bytes: &[u8]) -> Result<Option<Line>, NoMemory>
    ensures { IfOk result (Reads Command.Parts bytes.now) }
{
    let Some((periodic, infinite, whole)) = read_three_names(alloc, bytes)? else {
        return Ok(None);
    };
    Ok(Some(Line::Parts {
        periodic,
        infinite,
        whole,
    }))
}

// The line of `conj` and the bytes behind it. Three passes over them.
fn read_conj(alloc: Global, bytes: &[u8]) -> Result<Option<Line>, NoMemory>
    ensures { IfOk result (Reads Command.Conj bytes.now) }
{
    let Some((bound, first, second)) = read_three_names(alloc, bytes)? else {
        return Ok(None);
    };
    Ok(Some(Line::Conj {
        bound,
        first,
        second,
    }))
}

// The line of `share` and the bytes behind it. Four passes over them.
fn read_share(alloc: Global, bytes: &[u8]) -> Result<Option<Line>, NoMemory>
    ensures { IfOk result (Reads Command.Share bytes.now) }
{
    let Some((name, rest)) = read_first_name(alloc, bytes)? else {
        return Ok(None);
    };
    let Some((from, to)) = read_two_words(alloc, rest)? else {
        return Ok(None);
    };
    Ok(Some(Line::Share {
        name,
        first: from,
        second: to,
    }))
}

// The line of `power` and the bytes behind it. Three passes over them.
fn read_power(alloc: Global, bytes: &[u8]) -> Result<Option<Line>, NoMemory>
    ensures { IfOk result (Reads Command.Power bytes.now) }
{
    let Some((first, second)) = read_two_names(alloc, bytes)? else {
        return Ok(None);
    };
    Ok(Some(Line::Power { first, second }))
}

// The one token that the bytes have. One pass over them.
fn only_token(bytes: &[u8]) -> Option<&[u8]>
    ensures { MatchOption result ((token : List ℕ) → IsToken token → ¬ (Is token ▸ IsSpaces) bytes.now)
        (λ token. IsToken token.now × (Is token.now ▸ IsSpaces) bytes.now) }
{
    let Some((_, token, rest)) = first_token(bytes) else {
        return None;
    };
    if !only_spaces(rest) {
        return None;
    }
    Some(token)
}

// The two numbers that are the bytes. Two passes over them.
fn read_two_numbers(bytes: &[u8]) -> Option<(u32, u32)>
    ensures { MatchOption result ((n r : ℕ) → ¬ (IsNumber n ▸ IsNumber r ▸ IsSpaces) bytes.now)
        (λ p. (IsNumber p.0 ▸ IsNumber p.1 ▸ IsSpaces) bytes.now) }
{
    let Some((_, first, rest)) = first_token(bytes) else {
        return None;
    };
    let Some(n) = read_num(first) else {
        return None;
    };
    let Some(second) = only_token(rest) else {
        return None;
    };
    let Some(r) = read_num(second) else {
        return None;
    };
    Some((n, r))
}

// The rows that are the one token. Five passes over the bytes.
fn read_last_rows(alloc: Global, bytes: &[u8]) -> Result<Option<Rows>, NoMemory>
    ensures { IfOk result (λ found. MatchOption found
        ((rows : List Row) → ¬ (AreRows rows ▸ IsSpaces) bytes.now) (λ rows. (AreRows rows ▸ IsSpaces) bytes.now)) }
{
    let Some(token) = only_token(bytes) else {
        return Ok(None);
    };
    read_rows(alloc, token)
}

// The name that is the one token. Two passes over the bytes.
fn read_last_name(alloc: Global, bytes: &[u8]) -> Result<Option<Name>, NoMemory>
    ensures { IfOk result (λ found. MatchOption found
        ((name : List ℕ) → ¬ (IsNamed name ▸ IsSpaces) bytes.now) (λ name. (IsNamed name ▸ IsSpaces) bytes.now)) }
{
    let Some(token) = only_token(bytes) else {
        return Ok(None);
    };
    read_name(alloc, token)
}

// The two names that are the bytes. Three passes over them.
fn read_two_names(alloc: Global, bytes: &[u8]) -> Result<Option<(Name, Name)>, NoMemory>
    ensures { IfOk result (λ found. MatchOption found
        ((first second : List ℕ) → ¬ (IsNamed first ▸ IsNamed second ▸ IsSpaces) bytes.now)
        (λ p. (IsNamed p.0 ▸ IsNamed p.1 ▸ IsSpaces) bytes.now)) }
{
    let Some((first, rest)) = read_first_name(alloc, bytes)? else {
        return Ok(None);
    };
    let Some(second) = read_last_name(alloc, rest)? else {
        return Ok(None);
    };
    Ok(Some((first, second)))
}

// The three names that are the bytes. Three passes over them.
fn read_three_names(alloc: Global, bytes: &[u8]) -> Result<Option<(Name, Name, Name)>, NoMemory>
    ensures { IfOk result (λ found. MatchOption found
        ((first second third : List ℕ) → ¬ (IsNamed first ▸ IsNamed second ▸ IsNamed third ▸ IsSpaces) bytes.now)
        (λ p. (IsNamed p.0 ▸ IsNamed p.1 ▸ IsNamed p.2 ▸ IsSpaces) bytes.now)) }
{
    let Some((first, rest)) = read_first_name(alloc, bytes)? else {
        return Ok(None);
    };
    let Some((second, third)) = read_two_names(alloc, rest)? else {
        return Ok(None);
    };
    Ok(Some((first, second, third)))
}

// The word that is the one token. Three passes over the bytes.
fn read_last_word(alloc: Global, bytes: &[u8]) -> Result<Option<Word>, NoMemory>
    ensures { IfOk result (λ found. MatchOption found
        ((word : Word) → ¬ (IsWritten word ▸ IsSpaces) bytes.now) (λ word. (IsWritten word ▸ IsSpaces) bytes.now)) }
{
    let Some(token) = only_token(bytes) else {
        return Ok(None);
    };
    read_word(alloc, token)
}

// The two words that are the bytes. Four passes over them.
fn read_two_words(alloc: Global, bytes: &[u8]) -> Result<Option<(Word, Word)>, NoMemory>
    ensures { IfOk result (λ found. MatchOption found
        ((first second : Word) → ¬ (IsWritten first ▸ IsWritten second ▸ IsSpaces) bytes.now)
        (λ p. (IsWritten p.0 ▸ IsWritten p.1 ▸ IsSpaces) bytes.now)) }
{
    let Some((_, token, rest)) = first_token(bytes) else {
        return Ok(None);
    };
    let Some(first) = read_word(alloc, token)? else {
        return Ok(None);
    };
    let Some(second) = read_last_word(alloc, rest)? else {
        return Ok(None);
    };
    Ok(Some((first, second)))
}

// The file's name that is the one token. Two passes over the bytes.
fn read_last_file(alloc: Global, bytes: &[u8]) -> Result<Option<Name>, NoMemory>
    ensures { IfOk result (λ found. MatchOption found
        ((file : List ℕ) → ¬ (IsFileNamed file ▸ IsSpaces) bytes.now) (λ file. (IsFileNamed file ▸ IsSpaces) bytes.now)) }
{
    let Some(token) = only_token(bytes) else {
        return Ok(None);
    };
    read_file(alloc, token)
}

// The name that is the first token, and what is behind it. Two passes over the name.
fn read_first_name(alloc: Global, bytes: &[u8]) -> Result<Option<(Name, &[u8])>, NoMemory>
    ensures { IfOk result (λ found. MatchOption found
        ((name rest : List ℕ) → ¬ (IsNamed name ▸ Is rest) bytes.now) (λ p. (IsNamed p.0 ▸ Is p.1.now) bytes.now)) }
{
    let Some((_, token, rest)) = first_token(bytes) else {
        return Ok(None);
    };
    let Some(name) = read_name(alloc, token)? else {
        return Ok(None);
    };
    Ok(Some((name, rest)))
}

// The name and what is behind the `=` that follows it. Two passes over the name.
fn read_bound_name(alloc: Global, bytes: &[u8]) -> Result<Option<(Name, &[u8])>, NoMemory>
    ensures { IfOk result (λ found. MatchOption found
        ((name rest : List ℕ) → ¬ (IsNamed name ▸ Is (codes "=") ▸ Is rest) bytes.now)
        (λ p. (IsNamed p.0 ▸ Is (codes "=") ▸ Is p.1.now) bytes.now)) }
{
    let Some((_, first, rest)) = first_token(bytes) else {
        return Ok(None);
    };
    let Some((_, equals, behind)) = first_token(rest) else {
        return Ok(None);
    };
    if !is_equals(equals) {
        return Ok(None);
    }
    let Some(name) = read_name(alloc, first)? else {
        return Ok(None);
    };
    Ok(Some((name, behind)))
}
