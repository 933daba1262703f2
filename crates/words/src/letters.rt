// A word that is the letter of a class.
ghost use Rattle.std.specs.Prelude.{◌≡◌};
ghost use Rattle.words.specs.Letters.{letter_in};

use keys::Class;

// The class that a word is; none where it is not just the letter of one.
pub fn class_letter(word: &[u8]) -> Option<Class>
    ensures { result ≡ letter_in word.now }
{
    let [letter] = word else {
        return None;
    };
    Class::try_from(char::from(*letter)).ok()
}
