//! The words of the command line.
ghost use Rattle.std.specs.Prelude.{◌≡◌, ◌≤◌, ◌↔◌, ℕ, Some, false, map, string_bytes, IsTrue, IfOk, OnOk, IsErrOf};
ghost use Rattle.clap.specs.Words.{app_of, rule_of, fault_of, kind_of, FailsBy};
ghost use Rattle.ht_calc.specs.CommandLines.{budget_rule, sample_rule, command_app, AreBadWords, IsBudgetOf, IsSampleOf};

use clap::error::ErrorKind;
use clap::{Arg, ArgAction, Command, Error};
use std::alloc::{AllocError, Global};

/// What the words of the command line give.
#[derive(Clone, Copy, Debug)]
pub(crate) struct Settings {
    /// The budget, in expansions.
    pub budget: u32,
    /// The number of a sample, where they give one.
    pub sample: Option<u64>,
}

/// Why the words of the command line gave nothing.
#[derive(Clone, Copy, Debug, PartialEq, Eq)]
pub(crate) enum WordsFault {
    /// The command doesn't take these words.
    Bad,
    /// No memory was found.
    NoMemory,
}

// The option `--budget`, with a number from 1 to 65,536, 2000 where it isn't given.
fn budget_option<'a>(alloc: Global) -> Arg<'a>
    ensures rule { rule_of result ≡ budget_rule }
    ensures own { result.global ≡ false }
{
    Arg::new(alloc, "budget")
        .long("budget")
        .action(ArgAction::Set)
        .value_parser(clap::value_parser!(u32).range(1..65537))
        .default_value("2000")
}

// The option `--sample`, with a number from 0 to 2^64-1.
fn sample_option<'a>(alloc: Global) -> Arg<'a>
    ensures rule { rule_of result ≡ sample_rule }
    ensures own { result.global ≡ false }
{
    Arg::new(alloc, "sample")
        .long("sample")
        .action(ArgAction::Set)
        .value_parser(clap::value_parser!(u64))
}

// The command: these two options. Without clap's help, whose words are unknown words here.
fn command<'a>(alloc: Global) -> Result<Command<'a>, AllocError>
    ensures { IfOk result (λ c. app_of c ≡ command_app) }
{
    Command::new(alloc, "htcalc")
        .no_binary_name(true)
        .disable_help_flag(true)
        .arg(budget_option(alloc))?
        .arg(sample_option(alloc))
}

// The numbers that clap finds in the words. `--budget` always has a text, its default at least, and
// clap refuses a text outside its range.
fn settings_in<'a>(mut command: Command<'a>, words: &'a [String]) -> Result<Settings, Error>
    requires { app_of command ≡ command_app }
    ensures fault { FailsBy (fault_of command_app (map string_bytes words.entry.now)) result }
    ensures budget { IfOk result (λ settings. IsBudgetOf (map string_bytes words.entry.now) settings.budget) }
    ensures limits { IfOk result (λ settings. (1 ≤ settings.budget) × (settings.budget ≤ 65536)) }
    ensures sample { IfOk result (λ settings. (number : ℕ) → IsSampleOf (map string_bytes words.entry.now) number ↔ (settings.sample ≡ Some number)) }
{
    let matches = command.try_get_matches_from_mut(words)?;
    Ok(Settings {
        budget: matches.get_one::<u32>("budget").unwrap(),
        sample: matches.get_one::<u64>("sample"),
    })
}

fn is_memory(error: &Error) -> bool
    ensures { IsTrue result ↔ (kind_of error.now ≡ ErrorKind.OutOfMemory) }
{
    error.kind() == ErrorKind::OutOfMemory
}

/// The budget that the words give, from 1 to 65,536, and the number of a sample where they give one.
/// `Bad` where the command doesn't take the words; those that ask for help or a version are among
/// these. Linear time in the words.
pub(crate) fn read_words(alloc: Global, words: &[String]) -> Result<Settings, WordsFault>
    ensures budget { IfOk result (λ settings. IsBudgetOf (map string_bytes words.now) settings.budget) }
    ensures limits { IfOk result (λ settings. (1 ≤ settings.budget) × (settings.budget ≤ 65536)) }
    ensures sample { IfOk result (λ settings. (number : ℕ) → IsSampleOf (map string_bytes words.now) number ↔ (settings.sample ≡ Some number)) }
    ensures good { OnOk result (¬ AreBadWords (map string_bytes words.now)) }
    ensures bad { IsErrOf result WordsFault.Bad → AreBadWords (map string_bytes words.now) }
{
    let Ok(command) = command(alloc) else {
        return Err(WordsFault::NoMemory);
    };
    match settings_in(command, words) {
        Ok(settings) => Ok(settings),
        Err(error) if is_memory(&error) => Err(WordsFault::NoMemory),
        Err(_) => Err(WordsFault::Bad),
    }
}
