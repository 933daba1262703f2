// Making routes, reading their fields, and their order.
ghost use Rattle.std.specs.Prelude.{◌≡◌, refl};
ghost use Rattle.keys.specs.Ranges.{is_signal, nearest_signal};
ghost use Rattle.keys.specs.Routes.{route_le, route_fields, route_made, route_of};
ghost use Rattle.keys.specs.OrdersLemmas.{leb-total, by_first-total, leb_trans, by_first_trans, leb_antisym, by_first_antisym};
ghost use Rattle.keys.specs.RoutesLemmas.{route_path, class_same};
ghost use Rattle.std.proofs.Common.{arith, rules};

use super::super::class::Class;
use super::super::key::Key;
use super::super::refusal::Refusal;
use super::{Route, RouteFields};

const LEAST_SIGNAL: u16 = 1;

const GREATEST_SIGNAL: u16 = 9_999;

fn is_signal(number: u32) -> bool
    ensures { result ≡ is_signal number }
{
    (u32::from(LEAST_SIGNAL)..=u32::from(GREATEST_SIGNAL)).contains(&number)
}

fn nearest_signal(number: u16) -> u16
    ensures { result ≡ nearest_signal number }
{
    number.clamp(LEAST_SIGNAL, GREATEST_SIGNAL)
}

impl Route {
    // The route of these numbers and this class, where both numbers are signals.
    pub fn new(entry: u32, exit: u32, class: Class) -> Result<Route, Refusal>
        ensures { result ≡ route_of entry exit class }
    {
        if !is_signal(entry) {
            return Err(Refusal::OutOfRange);
        }
        if !is_signal(exit) {
            return Err(Refusal::OutOfRange);
        }
        Ok(Route {
            entry: entry as u16,
            exit: exit as u16,
            class,
        })
    }

    pub fn entry(self) -> u16
        ensures { result ≡ self.entry }
    {
        self.entry
    }

    pub fn exit(self) -> u16
        ensures { result ≡ self.exit }
    {
        self.exit
    }

    pub fn class(self) -> Class
        ensures { result ≡ self.class }
    {
        self.class
    }
}

impl Key for Route {
    type Fields = RouteFields;

    ghost le = { route_le };

    ghost parts = { route_fields };

    ghost made = { route_made };

    ghost reflexive = { first_of (Prim.search rules, Prim.grind (arith, Self.row.coded.inj)) };

    ghost total = { λ a b. by_first-total a.entry b.entry _ _ (by_first-total a.exit b.exit _ _ (leb-total _ _)) };

    ghost transitive = { λ a b c. by_first_trans a.entry b.entry c.entry _ _ _ (by_first_trans a.exit b.exit c.exit _ _ _ (leb_trans _ _ _)) };

    ghost antisymmetric = { λ a b e f.
        let p = by_first_antisym a.entry b.entry _ _ e f in
        let q = by_first_antisym a.exit b.exit _ _ p.1 p.2 in
        route_path a b p.0 q.0 (class_same a.class b.class (leb_antisym _ _ q.1 q.2)) };

    ghost remade = { λ a. route_path _ a (omega arith) (omega arith) refl };

    fn at_most(self, other: Route) -> bool {
        (self.entry, self.exit, self.class) <= (other.entry, other.exit, other.class)
    }

    fn fields(self) -> RouteFields {
        RouteFields {
            entry: self.entry,
            exit: self.exit,
            class: self.class,
        }
    }

    fn from_fields(fields: RouteFields) -> Route {
        Route {
            entry: nearest_signal(fields.entry),
            exit: nearest_signal(fields.exit),
            class: fields.class,
        }
    }
}
