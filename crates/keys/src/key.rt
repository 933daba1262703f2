// What a kind of key is: one question about two keys, and the plain fields that rows hold.
ghost use Rattle.std.specs.Prelude.{◌≡◌, Bool, true, false};

pub trait Key: Copy {
    // What a row of cells or of keys holds of a key.
    type Fields: Copy;

    // Whether one key is at most another.
    ghost le: { Self → Self → Bool };

    // A key's plain fields.
    ghost parts: { Self → Self.Fields };

    // The key that fields make; fields that no key has make some key of the kind.
    ghost made: { Self.Fields → Self };

    fn at_most(self, other: Self) -> bool
        ensures { result ≡ le self other };

    fn fields(self) -> Self::Fields
        ensures { result ≡ parts self };

    fn from_fields(fields: Self::Fields) -> Self
        ensures { result ≡ made fields };

    ghost reflexive: { (a : Self) → le a a ≡ true };

    ghost total: { (a b : Self) → le a b ≡ false → le b a ≡ true };

    ghost transitive: { (a b c : Self) → le a b ≡ true → le b c ≡ true → le a c ≡ true };

    ghost antisymmetric: { (a b : Self) → le a b ≡ true → le b a ≡ true → a ≡ b };

    ghost remade: { (a : Self) → made (parts a) ≡ a };
}
