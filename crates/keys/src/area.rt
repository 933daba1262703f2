// An area's number in front of a key of any kind: again a kind of key, so areas pile up.
ghost use Rattle.keys.specs.Orders.{by_first};
ghost use Rattle.std.proofs.Common.{rules};

use super::key::Key;

#[derive(Clone, Copy, PartialEq, Eq, Debug)]
pub struct Area<K> {
    pub number: u16,
    pub key: K,
}

impl<K: Key> Key for Area<K> {
    // The plain fields of an area key are an area of the fields of the key below.
    type Fields = Area<K::Fields>;

    ghost le = { λ a b. by_first a.number b.number (K.Key.le a.key b.key) };

    ghost parts = { λ a. record { number = a.number; key = K.Key.parts a.key } };

    ghost made = { λ f. record { number = f.number; key = K.Key.made f.key } };

    ghost reflexive = { Prim.search rules };

    ghost total = { Prim.search rules };

    ghost transitive = { Prim.search rules };

    ghost antisymmetric = { Prim.search rules };

    ghost remade = { Prim.search rules };

    // Kept: tuples compare by the library's order alone, and the key below answers only `at_most`.
    fn at_most(self, other: Area<K>) -> bool {
        self.number < other.number || self.number == other.number && self.key.at_most(other.key)
    }

    fn fields(self) -> Area<K::Fields> {
        Area {
            number: self.number,
            key: self.key.fields(),
        }
    }

    fn from_fields(fields: Area<K::Fields>) -> Area<K> {
        Area {
            number: fields.number,
            key: K::from_fields(fields.key),
        }
    }
}
