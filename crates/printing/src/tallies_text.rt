// Stored kinds of tally that can be printed.
ghost use Rattle.std.specs.Prelude.{◌≡◌, ℕ, List, Some, refl};
ghost use Rattle.std.specs.Option.{option_map, option_zip};
ghost use Rattle.std.proofs.Common.{ap₂};
ghost use Rattle.tallies.specs.TallyTexts.{number_text, classes_text, pair_text};

use keys::{Key, Route};
use std::fmt::Display;
use stored::StoredTally;
use tallies::{Classes, Number, Pair};

// A stored kind of tally each of which is printed as a text.
// Kept beside that of keys: each builds on the trait of its stored kind, so that one bound names both.
pub trait PrintedTally<K: Key>: StoredTally<K> + Display {
    ghost text: { Self → List ℕ };

    // What is printed of a tally is its text.
    ghost printed: { (t : Self) → Self.output t ≡ Some (text t) };
}

impl<K: Key> PrintedTally<K> for Number {
    ghost text = { number_text };

    ghost printed = { λ _. refl };
}

impl PrintedTally<Route> for Classes {
    ghost text = { classes_text };

    ghost printed = { λ _. refl };
}

impl<K: Key, A: PrintedTally<K>, B: PrintedTally<K>> PrintedTally<K> for Pair<A, B> {
    ghost text = { pair_text A.text B.text };

    ghost printed = { λ p. ap₂ (λ x y. option_map (λ both. pair_text (λ _. both.0) (λ _. both.1) p) (option_zip x y)) (A.printed p.first) (B.printed p.second) };
}
