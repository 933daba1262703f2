// Questions about two keys of any kind that follow from the one that the kind answers.
ghost use Rattle.std.specs.Prelude.{◌≡◌, true, ◌&&◌};
ghost use Rattle.keys.specs.Orders.{below, greater};

use super::key::Key;

// Whether a comes before b.
pub fn is_below<K: Key>(a: K, b: K) -> bool
    ensures { result ≡ below K.Key.le a b }
{
    !b.at_most(a)
}

// Whether a and b are one key.
// Kept: a kind of key answers one question, from which this follows; it need not have `==`.
pub fn is_same<K: Key>(a: K, b: K) -> bool
    ensures same { result ≡ true → a ≡ b }
    ensures found { a ≡ b → result ≡ true }
    ensures answer { result ≡ (K.Key.le a b && K.Key.le b a) }
{
    a.at_most(b) && b.at_most(a)
}

// The greater of two keys.
pub fn greater_of<K: Key>(a: K, b: K) -> K
    ensures { result ≡ greater K.Key.le a b }
{
    if a.at_most(b) { b } else { a }
}
