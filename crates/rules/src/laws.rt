// The laws of every register, on a function whose contract names them, so that the check demands their proof.
ghost use Rattle.rules.specs.Facts.{RegisterFacts};
ghost use Rattle.rules.specs.Kinds.{kinds_of};
ghost use Rattle.rules.specs.Laws.{RegisterLaws};

use keys::Key;
use tallies::Tally;

// Whatever calls led to a state from the opening: finished requests bear the plain set's answers, a station that
// serves a request gets it finished within so many calls, and reading off lists the plain set; queues rise, places
// are older than who waits there, a request waits at one place, a count at two, and what is finished stays.
pub fn laws_stand<K: Key, T: Tally<K>>()
    ensures laws { RegisterLaws (kinds_of K.Key T.Tally) }
    ensures facts { RegisterFacts (kinds_of K.Key T.Tally) }
{}
