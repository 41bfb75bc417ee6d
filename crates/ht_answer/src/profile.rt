//! The text of the answer to `profile`.
ghost use Rattle.std.specs.Prelude.{◌≡◌, ◌++◌, OnOk, OnErr};
ghost use Rattle.std.specs.List.{flat_map};
ghost use Rattle.ht_text.specs.Writes.{AddsFront};
ghost use Rattle.ht_answer.specs.declared.answer.Answer.{Answer};
ghost use Rattle.ht_answer.specs.Answers.{answer_text};
ghost use Rattle.ht_answer.specs.OrderTexts.{cycles_text, spaced_cycles_text, profile_text};

use ht_text::write_natural;
use ht_types::Profile;
use ht_word::NoMemory;

// Appends the answer to `profile`.
pub(crate) fn print_profile(profile: &Profile, out: &mut Vec<u8>) -> Result<(), NoMemory>
    ensures ok { OnOk result (out.new.items ≡ out.old.items ++ answer_text (Answer.Profile profile.now)) }
    ensures err { OnErr result (AddsFront out.old.items out.new.items (answer_text (Answer.Profile profile.now))) }
{
    write_profile(profile.as_slice(), out)?;
    out.push(b'\n')?;
    Ok(())
}

// Appends the entries of a profile, with a space between any two, or `none`.
fn write_profile(profile: &[(u64, u64)], out: &mut Vec<u8>) -> Result<(), NoMemory>
    ensures ok { OnOk result (out.new.items ≡ out.old.items ++ profile_text profile.now) }
    ensures err { OnErr result (AddsFront out.old.items out.new.items (profile_text profile.now)) }
{
    let Some((first, others)) = profile.split_first() else {
        out.extend_from_slice(b"none")?;
        return Ok(());
    };
    write_cycles(first, out)?;
    write_others(others, out)
}

// Appends the entries of a profile, each behind a space.
fn write_others(entries: &[(u64, u64)], out: &mut Vec<u8>) -> Result<(), NoMemory>
    ensures ok { OnOk result (out.new.items ≡ out.old.items ++ flat_map spaced_cycles_text entries.now) }
    ensures err { OnErr result (AddsFront out.old.items out.new.items (flat_map spaced_cycles_text entries.now)) }
{
    for entry in entries {
        write_spaced(entry, out)?;
    }
    Ok(())
}

// Appends an entry of a profile behind a space.
fn write_spaced(entry: &(u64, u64), out: &mut Vec<u8>) -> Result<(), NoMemory>
    ensures ok { OnOk result (out.new.items ≡ out.old.items ++ spaced_cycles_text entry.now) }
    ensures err { OnErr result (AddsFront out.old.items out.new.items (spaced_cycles_text entry.now)) }
{
    out.push(b' ')?;
    write_cycles(entry, out)
}

// Appends an entry of a profile: a length of cycles, and their number.
fn write_cycles(entry: &(u64, u64), out: &mut Vec<u8>) -> Result<(), NoMemory>
    ensures ok { OnOk result (out.new.items ≡ out.old.items ++ cycles_text entry.now) }
    ensures err { OnErr result (AddsFront out.old.items out.new.items (cycles_text entry.now)) }
{
    write_natural(entry.0 as u128, out)?;
    out.push(b':')?;
    write_natural(entry.1 as u128, out)
}
