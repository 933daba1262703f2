// A line that is a route: two numbers and the letter of a class, one space between them.
ghost use Rattle.std.specs.Prelude.{◌≡◌, drop};
ghost use Rattle.keys.specs.Routes.{route_of};
ghost use Rattle.words.specs.Lines.{left, route_words, next_route, row_words, line_route};
ghost use Rattle.words.specs.Meaning.{Reads};

use super::letters::class_letter;
use super::numbers::number;
use keys::{Class, Refusal, Route};
use octets::Pieces;

// The three words of a route, read, and not yet checked for range.
#[derive(Clone, Copy, PartialEq, Eq, Debug)]
pub struct RouteWords {
    pub entry: u32,
    pub exit: u32,
    pub class: Class,
}

impl RouteWords {
    // The route of these words, where both numbers are signals.
    // Kept: words are asked for their route at the end of a chain, where a method reads on.
    pub fn route(self) -> Result<Route, Refusal>
        ensures { result ≡ route_of self.entry self.exit self.class }
    {
        Route::new(self.entry, self.exit, self.class)
    }
}

// What three words say of a route; none where one of them is of another form.
pub fn route_words(entry: &[u8], exit: &[u8], class: &[u8]) -> Option<RouteWords>
    ensures { result ≡ route_words entry.now exit.now class.now }
{
    let entry = number(entry)?;
    let exit = number(exit)?;
    let class = class_letter(class)?;
    Some(RouteWords { entry, exit, class })
}

// The route that the next three words are.
pub fn next_route(words: &mut Pieces<'_>) -> Option<RouteWords>
    ensures answer { result ≡ next_route (left words.old) }
    ensures after { left words.new ≡ drop 3 (left words.old) }
{
    let entry = words.next()?;
    let exit = words.next()?;
    let class = words.next()?;
    route_words(entry, exit, class)
}

// The route that the only three words left are.
pub fn last_route(mut words: Pieces<'_>) -> Option<RouteWords>
    ensures { result ≡ row_words (left words.entry) }
{
    let route = next_route(&mut words)?;
    words.next().is_none().then_some(route)
}

// The route that a line is: no such line where its words are of another form, out of range where a number is no signal.
pub fn read_route(line: &[u8]) -> Result<Route, Refusal>
    ensures answer { result ≡ line_route line.now }
    ensures meaning { Reads line.now result }
{
    last_route(Pieces::new(line, b' '))
        .ok_or(Refusal::NoSuchLine)?
        .route()
}
