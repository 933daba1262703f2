// A route: entry signal, exit signal and class, each within its range.
ghost use Rattle.keys.specs.Ranges.{Signal};

use super::class::Class;

mod calls;

#[derive(Clone, Copy, PartialEq, Eq, Debug)]
pub struct Route {
    entry: u16,
    exit: u16,
    class: Class,
    ghost starts: { Signal entry },
    ghost ends: { Signal exit },
}

// The plain fields of a route.
#[derive(Clone, Copy, PartialEq, Eq, Debug)]
pub struct RouteFields {
    pub entry: u16,
    pub exit: u16,
    pub class: Class,
}
