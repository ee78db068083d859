//! The function of a source against its outcomes, and what is read of lexemes against what the lexer has in them.
ghost use Rattle.std.specs.Prelude.{List, ℕ};
ghost use Rattle.hs_header.specs.Reading.{TellsHeader};
ghost use Rattle.hs_header.specs.Extensions.{WordsAreNames};
ghost use Rattle.hs_header.specs.Names.{NamesAreParted};

/// A source has one header, or one fault, and the function tells which: so the outcomes exclude one another, and one
/// always holds.
pub fn header_is_told()
    ensures { (source : List ℕ) → TellsHeader source }
{}

/// The words of a pragma for LANGUAGE are the names that the lexer finds in it.
pub fn pragma_words_are_names()
    ensures { WordsAreNames }
{}

/// The qualifier of a name is the conids that the lexer finds before its last part, and the name is that part.
pub fn names_are_parted()
    ensures { NamesAreParted }
{}
