//! The classes of characters that the lexical grammar tells apart.
ghost use Rattle.std.specs.Prelude.{◌≡◌};
ghost use Rattle.mk_base.specs.Classes.{class_of, of_category, wide_class};

use unicode::properties::GeneralCategory;

/// A class of characters (Haskell 2010 Report, section 2.2).
#[derive(Clone, Copy, Debug, PartialEq, Eq, PartialOrd, Ord, Hash)]
pub enum CharClass {
    Small,
    Large,
    Digit,
    Symbol,
    Special,
    White,
    Other,
}

/// The class of a character past ASCII that isn't white space, by its general category.
fn of_category(category: GeneralCategory) -> CharClass
    ensures { result ≡ of_category category }
{
    match category {
        GeneralCategory::LowercaseLetter => CharClass::Small,
        GeneralCategory::UppercaseLetter | GeneralCategory::TitlecaseLetter => CharClass::Large,
        GeneralCategory::DecimalNumber => CharClass::Digit,
        GeneralCategory::ConnectorPunctuation
        | GeneralCategory::DashPunctuation
        | GeneralCategory::OpenPunctuation
        | GeneralCategory::ClosePunctuation
        | GeneralCategory::InitialPunctuation
        | GeneralCategory::FinalPunctuation
        | GeneralCategory::OtherPunctuation
        | GeneralCategory::MathSymbol
        | GeneralCategory::CurrencySymbol
        | GeneralCategory::ModifierSymbol
        | GeneralCategory::OtherSymbol => CharClass::Symbol,
        _ => CharClass::Other,
    }
}

/// The class of a character: of ASCII by the lists of the Haskell 2010 Report, section 2.2, and past ASCII by
/// Unicode's white space and general category.
///
/// Quotes are of no class, and letters that are neither lower, upper nor title case aren't either.
#[tactic(auto, unfolding(crate::specs::Classes::class_of))]
pub fn class_of(c: char) -> CharClass
    ensures { result ≡ class_of c }
{
    match c as u32 {
        97..=122 | 95 => CharClass::Small,
        65..=90 => CharClass::Large,
        48..=57 => CharClass::Digit,
        33 | 35..=38 | 42..=43 | 45..=47 | 58 | 60..=64 | 92 | 94 | 124 | 126 => CharClass::Symbol,
        40..=41 | 44 | 59 | 91 | 93 | 96 | 123 | 125 => CharClass::Special,
        9..=13 | 32 => CharClass::White,
        0..=127 => CharClass::Other,
        _ => wide_class_of(c),
    }
}

fn wide_class_of(c: char) -> CharClass
    ensures { result ≡ wide_class c }
{
    if c.is_whitespace() {
        return CharClass::White;
    }
    of_category(GeneralCategory::for_char(c))
}
