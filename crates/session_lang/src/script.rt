//! Scripts: commands one after another, up to `quit`.
ghost use Rattle.session_lang.specs.Script.{ScriptsHaveOneReading, GoodIsNotBad, BadPlacesAreOne};

/// A script is read in one way only: its commands are fixed by its bytes, none is good and bad, and a bad one has one bad place.
pub fn scripts_have_one_reading()
    ensures reading { ScriptsHaveOneReading }
    ensures apart { GoodIsNotBad }
    ensures place { BadPlacesAreOne }
{}
