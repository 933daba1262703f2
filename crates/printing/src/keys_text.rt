// Stored kinds of key that can be printed.
ghost use Rattle.std.specs.Prelude.{◌≡◌, ℕ, List, Some, refl, option_map};
ghost use Rattle.std.proofs.Common.{ap};
ghost use Rattle.keys.specs.KeyTexts.{route_text, section_text, area_text};

use keys::{Area, Route, Section};
use std::fmt::Display;
use stored::StoredKey;

// A stored kind of key each of which is printed as a text.
pub trait PrintedKey: StoredKey + Display {
    ghost text: { Self → List ℕ };

    // What is printed of a key is its text.
    ghost printed: { (k : Self) → Self.output k ≡ Some (text k) };
}

impl PrintedKey for Route {
    ghost text = { route_text };

    ghost printed = { λ _. refl };
}

impl PrintedKey for Section {
    ghost text = { section_text };

    ghost printed = { λ _. refl };
}

impl<K: PrintedKey> PrintedKey for Area<K> {
    ghost text = { area_text K.text };

    ghost printed = { λ a. ap (option_map (λ key. area_text (λ _. key) a)) (K.printed a.key) };
}
