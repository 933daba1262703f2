// The cases that settle the rules at their edges, and the worked runs: each a statement about the rules, promised here.
#![tactic(auto)]

ghost use Rattle.rules.specs.Kinds.{kinds_of};
ghost use Rattle.edges.specs.Cases.{EdgeCases};
ghost use Rattle.edges.specs.Named.{NamedCases};
ghost use Rattle.edges.specs.Sizes.{ArchiveSizes};
ghost use Rattle.edges.specs.Teeth.{ShortcutsBreak};
ghost use Rattle.edges.specs.Vectors.{Vectors};

use keys::{Key, Route};
use stored::{StoredKey, StoredTally};
use tallies::{Number, Tally};

// The edge cases stand for every kind of key and of tally.
pub fn edges_stand<K: Key, T: Tally<K>>()
    ensures { EdgeCases (kinds_of K.Key T.Tally) }
{}

// The smallest archives have the lengths and the parts that are told of them.
pub fn sizes_stand<K: StoredKey, T: StoredTally<K>>()
    ensures { ArchiveSizes K.StoredKey.form T.StoredTally.form }
{}

// The whole list stands: the cases that name routes and sections, and the general ones called on for routes counted by number.
pub fn named_stand()
    ensures { NamedCases }
{
    edges_stand::<Route, Number>();
    sizes_stand::<Route, Number>();
}

// The worked runs come out line by line as they are written.
pub fn vectors_stand()
    ensures { Vectors }
{}

// Registers that take a shortcut break a law of the rules in a run, or answer otherwise than the rules.
pub fn shortcuts_break()
    ensures { ShortcutsBreak }
{}
