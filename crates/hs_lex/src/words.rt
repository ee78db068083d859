//! The reserved words and operators (Haskell 2010 Report, section 2.4).
ghost use Rattle.std.specs.Prelude.{◌≡◌};
ghost use Rattle.std.specs.List.{list_any};
ghost use Rattle.std.specs.Str.{bytes_eq};
ghost use Rattle.source_text.specs.Characters.{characters};
ghost use Rattle.hs_lex.specs.Words.{is_word, is_operator_word, is_import, is_reserved};

const WORDS: [&[u8]; 23] = [
    b"case",
    b"class",
    b"data",
    b"default",
    b"deriving",
    b"do",
    b"else",
    b"foreign",
    b"if",
    b"import",
    b"in",
    b"infix",
    b"infixl",
    b"infixr",
    b"instance",
    b"let",
    b"module",
    b"newtype",
    b"of",
    b"then",
    b"type",
    b"where",
    b"_",
];

const OPERATORS: [&[u8]; 11] = [
    b"..", b":", b"::", b"=", b"\\", b"|", b"<-", b"->", b"@", b"~", b"=>",
];

/// Whether a text is one of some words.
fn is_one_of(words: &[&[u8]], text: &[u8]) -> bool
    ensures { result ≡ list_any (λ w. bytes_eq text.now w.now) words.now }
{
    words.iter().any(|word| text == *word)
}

/// Whether a text is a reserved word.
pub fn is_word(text: &[u8]) -> bool
    ensures { result ≡ is_word (characters text.now) }
{
    is_one_of(&WORDS, text)
}

/// Whether a text is a reserved operator.
pub fn is_operator_word(text: &[u8]) -> bool
    ensures { result ≡ is_operator_word (characters text.now) }
{
    is_one_of(&OPERATORS, text)
}

/// Whether a text is the word `import`.
pub fn is_import(text: &[u8]) -> bool
    ensures { result ≡ is_import (characters text.now) }
{
    text == b"import".as_slice()
}

/// Whether a text is a reserved word or operator.
pub fn is_reserved(text: &[u8]) -> bool
    ensures { result ≡ is_reserved (characters text.now) }
{
    is_word(text) || is_operator_word(text)
}
