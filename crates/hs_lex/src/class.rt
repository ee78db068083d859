//! The classes of characters.
ghost use Rattle.std.specs.Prelude.{◌≡◌};
ghost use Rattle.hs_lex.specs.Classes.{class_of, of_char_class, in_part, in_name, in_symbol, in_white, is_character, is_control, is_inside};

use mk_base::char_class;
use mk_base::char_class::CharClass;

#[derive(Clone, Copy)]
pub enum Class {
    Small,
    Large,
    Digit,
    Symbol,
    Special,
    Quote,
    Tick,
    White,
    Other,
}

/// The class of a code: that of its character, with the two quotes apart; what is no character is of no class.
#[tactic(auto, unfolding(crate::specs::Classes::class_of))]
pub fn class_of(c: u32) -> Class
    ensures { result ≡ class_of c }
{
    match c {
        34 => Class::Quote,
        39 => Class::Tick,
        _ => match char::from_u32(c) {
            Some(character) => of_char_class(char_class::class_of(character)),
            None => Class::Other,
        },
    }
}

fn of_char_class(class: CharClass) -> Class
    ensures { result ≡ of_char_class class }
{
    match class {
        CharClass::Small => Class::Small,
        CharClass::Large => Class::Large,
        CharClass::Digit => Class::Digit,
        CharClass::Symbol => Class::Symbol,
        CharClass::Special => Class::Special,
        CharClass::White => Class::White,
        CharClass::Other => Class::Other,
    }
}

/// What runs are made of.
#[derive(Clone, Copy)]
pub enum Part {
    Name,
    Symbol,
    White,
    Digit,
    Octal,
    Hexadecimal,
    Dash,
    Comment,
}

fn is_name(class: Class) -> bool
    ensures { result ≡ in_name class }
{
    match class {
        Class::Small | Class::Large | Class::Digit | Class::Tick => true,
        _ => false,
    }
}

fn is_symbol(class: Class) -> bool
    ensures { result ≡ in_symbol class }
{
    match class {
        Class::Symbol => true,
        _ => false,
    }
}

fn is_white(class: Class) -> bool
    ensures { result ≡ in_white class }
{
    match class {
        Class::White => true,
        _ => false,
    }
}

/// Whether a code is a character of Unicode, and no surrogate nor what an ill-formed byte reads as.
pub fn is_character(c: u32) -> bool
    ensures { result ≡ is_character c }
{
    c < 0xd800 || (c >= 0xe000 && c < 0x11_0000)
}

/// Whether a character is of the general category Control.
pub fn is_control(c: u32) -> bool
    ensures { result ≡ is_control c }
{
    c < 32 || (c >= 127 && c <= 159)
}

/// Whether a character may stand inside of a nested comment: any but controls that aren't white space.
#[tactic(auto, unfolding(crate::specs::Classes::is_inside))]
pub fn is_inside(c: u32) -> bool
    ensures { result ≡ is_inside c }
{
    is_character(c) && (!is_control(c) || is_white(class_of(c)))
}

/// Whether a character is of a part.
#[tactic(auto, unfolding(crate::specs::Classes::in_part))]
pub fn is_in(part: Part, c: u32) -> bool
    ensures { result ≡ in_part part c }
{
    match part {
        Part::Name => is_name(class_of(c)),
        Part::Symbol => is_symbol(class_of(c)),
        Part::White => is_white(class_of(c)),
        Part::Digit => c >= 48 && c <= 57,
        Part::Octal => c >= 48 && c <= 55,
        Part::Hexadecimal => (c >= 48 && c <= 57)
            || ((c >= 65 && c <= 70) || (c >= 97 && c <= 102)),
        Part::Dash => c == 45,
        Part::Comment => c == 9 || (is_character(c) && !is_control(c)),
    }
}
