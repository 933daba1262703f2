// The class of a route: its number and its letter.
ghost use Rattle.std.specs.Prelude.{◌≡◌, Some, [], ◌∷◌};
ghost use Rattle.keys.specs.Classes.{class_number, class_letter, ClassOfNumber, ClassOfLetter};

use super::refusal::Refusal;
use std::fmt;

#[derive(Clone, Copy, PartialEq, Eq, PartialOrd, Ord, Debug)]
pub enum Class {
    M,
    W,
    C,
    S,
}

impl From<Class> for u8 {
    ghost from_gives = { λ class number. number ≡ class_number class };

    fn from(class: Class) -> u8 {
        match class {
            Class::M => 1,
            Class::W => 2,
            Class::C => 3,
            Class::S => 4,
        }
    }
}

// The class of that number; a number that no class has is out of range.
impl TryFrom<u8> for Class {
    type Error = Refusal;

    ghost try_from_gives = { ClassOfNumber };

    fn try_from(number: u8) -> Result<Class, Refusal> {
        match number {
            1 => Ok(Class::M),
            2 => Ok(Class::W),
            3 => Ok(Class::C),
            4 => Ok(Class::S),
            _ => Err(Refusal::OutOfRange),
        }
    }
}

impl From<Class> for char {
    ghost from_gives = { λ class letter. letter ≡ class_letter class };

    fn from(class: Class) -> char {
        match class {
            Class::M => 'M',
            Class::W => 'W',
            Class::C => 'C',
            Class::S => 'S',
        }
    }
}

// The class of that letter; none has a letter other than these four.
impl TryFrom<char> for Class {
    type Error = Refusal;

    ghost try_from_gives = { ClassOfLetter };

    fn try_from(letter: char) -> Result<Class, Refusal> {
        match letter {
            'M' => Ok(Class::M),
            'W' => Ok(Class::W),
            'C' => Ok(Class::C),
            'S' => Ok(Class::S),
            _ => Err(Refusal::NoSuchLine),
        }
    }
}

// A class is printed as its letter.
impl fmt::Display for Class {
    ghost output = { λ class. Some (class_letter class ∷ []) };

    fn fmt<W: fmt::Write>(&self, f: &mut fmt::Formatter<W>) -> fmt::Result {
        let letter = char::from(*self);
        write!(f, "{letter}")
    }
}
