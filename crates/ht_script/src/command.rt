//! The commands, and what stands behind the word of each.
ghost use Rattle.std.specs.Prelude.{◌≡◌, ◌≢◌, ◌↔◌, ℕ, IsTrue, MatchOption};
ghost use Rattle.ht_text.specs.Fronts.{IsLongestFront};
ghost use Rattle.ht_script.specs.Slots.{keyword, slots_of, ending_of, IsSlot, IsKeyword};

use crate::ending::Ending;
use crate::file::{file_front, is_file};
use crate::name::{is_name, name_front};
use crate::token::{is_equals, shared_front};
use ht_text::{is_word, num_front, read_num, word_front};

/// The first word of a line that isn't blank.
#[derive(Clone, Copy, Debug, PartialEq, Eq)]
pub(crate) enum Command {
    Group,
    Reduce,
    Let,
    Show,
    Equal,
    Image,
    Load,
    Basis,
    Order,
    Types,
    Profile,
    Parts,
    Conj,
    Ponds,
    Share,
    Power,
}

/// What a token behind the first word is.
#[derive(Clone, Copy, Debug, PartialEq, Eq)]
pub(crate) enum Slot {
    Number,
    Name,
    Equals,
    Word,
    File,
}

// Every command.
const COMMANDS: [Command; 16] = [
    Command::Group,
    Command::Reduce,
    Command::Let,
    Command::Show,
    Command::Equal,
    Command::Image,
    Command::Load,
    Command::Basis,
    Command::Order,
    Command::Types,
    Command::Profile,
    Command::Parts,
    Command::Conj,
    Command::Ponds,
    Command::Share,
    Command::Power,
];

impl Command {
    // The command's word.
    fn keyword(self) -> &'static [u8]
        ensures { result.now ≡ keyword self }
    {
        match self {
            Command::Group => b"group",
            Command::Reduce => b"reduce",
            Command::Let => b"let",
            Command::Show => b"show",
            Command::Equal => b"equal",
            Command::Image => b"image",
            Command::Load => b"load",
            Command::Basis => b"basis",
            Command::Order => b"order",
            Command::Types => b"types",
            Command::Profile => b"profile",
            Command::Parts => b"parts",
            Command::Conj => b"conj",
            Command::Ponds => b"ponds",
            Command::Share => b"share",
            Command::Power => b"power",
        }
    }

    // The tokens behind the command's word.
    pub(crate) fn slots(self) -> &'static [Slot]
        ensures { result.now ≡ slots_of self }
    {
        match self {
            Command::Group => &[Slot::Number, Slot::Number],
            Command::Reduce => &[],
            Command::Let => &[Slot::Name, Slot::Equals],
            Command::Equal | Command::Power => &[Slot::Name, Slot::Name],
            Command::Image => &[Slot::Name, Slot::Word],
            Command::Load => &[Slot::Name, Slot::File],
            Command::Show | Command::Basis | Command::Order => &[Slot::Name],
            Command::Types | Command::Profile | Command::Ponds => &[Slot::Name],
            Command::Share => &[Slot::Name, Slot::Word, Slot::Word],
            Command::Parts | Command::Conj => &[Slot::Name, Slot::Name, Slot::Name],
        }
    }

    // What stands behind these tokens.
    pub(crate) fn ending(self) -> Ending
        ensures { result ≡ ending_of self }
    {
        match self {
            Command::Reduce => Ending::Rows,
            Command::Let => Ending::Value,
            Command::Group | Command::Show | Command::Equal => Ending::Spaces,
            Command::Image | Command::Load | Command::Basis => Ending::Spaces,
            Command::Order | Command::Types | Command::Profile => Ending::Spaces,
            Command::Parts | Command::Conj => Ending::Spaces,
            Command::Ponds | Command::Share | Command::Power => Ending::Spaces,
        }
    }

    // The command whose word the token is. One pass over the commands.
    pub(crate) fn of_keyword(token: &[u8]) -> Option<Command>
        ensures { MatchOption result (¬ IsKeyword token.now) (λ command. token.now ≡ keyword command) }
    {
        for command in COMMANDS {
            if token == command.keyword() {
                return Some(command);
            }
        }
        None
    }
}

// The length of the longest front of the token that some command's word has. One pass over the
// commands.
pub(crate) fn keyword_front(token: &[u8]) -> usize
    ensures { IsLongestFront IsKeyword token.now result }
{
    let mut most = 0;
    for command in COMMANDS {
        let front = shared_front(token, command.keyword());
        if most < front {
            most = front;
        }
    }
    most
}

impl Slot {
    // Whether the token fits the slot. One pass over the token.
    pub(crate) fn holds(self, token: &[u8]) -> bool
        ensures { IsTrue result ↔ IsSlot self token.now }
    {
        match self {
            Slot::Number => read_num(token).is_some(),
            Slot::Name => is_name(token),
            Slot::Equals => is_equals(token),
            Slot::Word => is_word(token),
            Slot::File => is_file(token),
        }
    }

    // The length of the longest front of the token that some token of the slot has. One pass over
    // the token.
    pub(crate) fn front(self, token: &[u8]) -> usize
        ensures { IsLongestFront (IsSlot self) token.now result }
    {
        match self {
            Slot::Number => num_front(token),
            Slot::Name => name_front(token),
            Slot::Equals => shared_front(token, b"="),
            Slot::Word => word_front(token),
            Slot::File => file_front(token),
        }
    }
}
