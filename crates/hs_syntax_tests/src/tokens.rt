//! That tokens are copied with ample memory, and that a lexeme is told from a sign of layout.
use hs_syntax::token::{PutSign, Token, TokenKind};
use mk_base::place::Pos;
use mk_base::plain::Plain;
use mk_base::text::Text;

#[test]
fn tokens_are_copied_and_told_apart(rt: HostRuntime) {
    let alloc = rt.alloc();
    let Ok(text) = Text::from_slice(alloc, b"where") else {
        assert!(rt; false);
        return;
    };
    let at = Pos { line: 2, col: 5 };
    let word = Token {
        kind: TokenKind::Word,
        text,
        start: 12,
        end: 17,
        at,
        put: None,
    };
    let sign = Token {
        kind: TokenKind::Special,
        text: Text::new(alloc),
        start: 17,
        end: 17,
        at,
        put: Some(PutSign::Open),
    };
    assert!(rt; !word.same(&sign));
    match (word.copy(alloc), sign.copy(alloc)) {
        (Ok(second), Ok(other)) => {
            assert!(rt; second.same(&word));
            assert!(rt; other.same(&sign));
        }
        _ => assert!(rt; false),
    }
}
