// The words of a line: the four that name a call, and the four that name a kind of request.
ghost use Rattle.std.specs.Prelude.{◌≡◌};
ghost use Rattle.lines.specs.Vocabulary.{verb_in, kind_in};

use requests::Kind;

// What a line asks for, by its first word.
#[derive(Clone, Copy, PartialEq, Eq, Debug)]
pub enum Verb {
    Submit,
    Follow,
    Carry,
    Collect,
}

// The call that a word names; none where it names none.
// Kept: no TryFrom, since the readers of a form answer none for any wrong word and would drop its error at once.
pub fn verb_in(word: &[u8]) -> Option<Verb>
    ensures { result ≡ verb_in word.now }
{
    match word {
        b"submit" => Some(Verb::Submit),
        b"follow" => Some(Verb::Follow),
        b"carry" => Some(Verb::Carry),
        b"collect" => Some(Verb::Collect),
        _ => None,
    }
}

// The kind of request that a word names; none where it names none.
// Kept beside the other: the words are not the same, and a table of words and cases would be searched by hand.
pub fn kind_in(word: &[u8]) -> Option<Kind>
    ensures { result ≡ kind_in word.now }
{
    match word {
        b"enter" => Some(Kind::Enter),
        b"withdraw" => Some(Kind::Withdraw),
        b"lookup" => Some(Kind::LookUp),
        b"count" => Some(Kind::Count),
        _ => None,
    }
}
