//! Places in the texts of words and rows, read byte by byte.
ghost use Rattle.std.specs.Prelude.{◌≡◌, ℕ, List, [], ◌∷◌, ◌↔◌, IsTrue, MatchOption};
ghost use Rattle.ht_text.specs.Places.{IsLetterByte, EndsRoot, CompletesWord, CompletesWith, EndsFromWord, EndsRow, FollowsRows};

// How much of a word has been read.
#[derive(Clone, Copy, Debug)]
pub(crate) enum Place {
    // Nothing.
    Start,
    // The `x`.
    Mark,
    // Some digits of the root, with room for so many more.
    Root(u8),
    // The root and the `.`.
    Point,
    // Some letters.
    Letters,
}

// How much of rows has been read, within a word.
#[derive(Clone, Copy, Debug)]
pub(crate) enum Spot {
    From(Place),
    To(Place),
}

impl Place {
    // The place behind one more byte; `None` exactly where the byte can't stand here.
    pub(crate) fn next(self, byte: u8) -> Option<Place>
        ensures { MatchOption result ((rest : List ℕ) → ¬ CompletesWord self (byte ∷ rest))
            (λ next. (rest : List ℕ) → CompletesWord self (byte ∷ rest) ↔ CompletesWord next rest) }
    {
        match self {
            Place::Start => (byte == b'x').then_some(Place::Mark),
            Place::Mark => is_letter(byte).then_some(Place::Root(3)),
            Place::Root(room) => behind_root(room, byte),
            Place::Point => is_letter(byte).then_some(Place::Letters),
            Place::Letters => is_letter(byte).then_some(Place::Letters),
        }
    }

    // Whether a whole word has been read.
    pub(crate) fn is_whole(self) -> bool
        ensures { IsTrue result ↔ CompletesWord self [] }
    {
        matches!(self, Place::Root(_) | Place::Letters)
    }
}

impl Spot {
    // The spot behind one more byte; `None` exactly where the byte can't stand here.
    pub(crate) fn next(self, byte: u8) -> Option<Spot>
        ensures { MatchOption result ((rest : List ℕ) → ¬ FollowsRows self (byte ∷ rest))
            (λ next. (rest : List ℕ) → FollowsRows self (byte ∷ rest) ↔ FollowsRows next rest) }
    {
        match self {
            Spot::From(place) => behind_from(place, byte),
            Spot::To(place) => behind_to(place, byte),
        }
    }

    // Whether whole rows have been read.
    pub(crate) fn is_whole(self) -> bool
        ensures { IsTrue result ↔ FollowsRows self [] }
    {
        match self {
            Spot::From(_) => false,
            Spot::To(place) => place.is_whole(),
        }
    }
}

// Whether a byte is the digit of a letter.
fn is_letter(byte: u8) -> bool
    ensures { IsTrue result ↔ IsLetterByte byte }
{
    byte >= b'1' && byte <= b'9'
}

// The place behind one more byte in a root.
fn behind_root(room: u8, byte: u8) -> Option<Place>
    ensures { MatchOption result ((rest : List ℕ) → ¬ EndsRoot room (byte ∷ rest))
        (λ next. (rest : List ℕ) → EndsRoot room (byte ∷ rest) ↔ CompletesWord next rest) }
{
    if byte == b'.' {
        return Some(Place::Point);
    }
    if room > 0 && byte >= b'0' && byte <= b'9' {
        return Some(Place::Root(room - 1));
    }
    None
}

// The spot behind one more byte in a `from` word.
fn behind_from(place: Place, byte: u8) -> Option<Spot>
    ensures { MatchOption result ((rest : List ℕ) → ¬ CompletesWith EndsFromWord place (byte ∷ rest))
        (λ next. (rest : List ℕ) → CompletesWith EndsFromWord place (byte ∷ rest) ↔ FollowsRows next rest) }
{
    if byte == b'>' {
        if !place.is_whole() {
            return None;
        }
        return Some(Spot::To(Place::Start));
    }
    let Some(next) = place.next(byte) else {
        return None;
    };
    Some(Spot::From(next))
}

// The spot behind one more byte in a `to` word.
fn behind_to(place: Place, byte: u8) -> Option<Spot>
    ensures { MatchOption result ((rest : List ℕ) → ¬ CompletesWith EndsRow place (byte ∷ rest))
        (λ next. (rest : List ℕ) → CompletesWith EndsRow place (byte ∷ rest) ↔ FollowsRows next rest) }
{
    if byte == b';' {
        if !place.is_whole() {
            return None;
        }
        return Some(Spot::From(Place::Start));
    }
    let Some(next) = place.next(byte) else {
        return None;
    };
    Some(Spot::To(next))
}
