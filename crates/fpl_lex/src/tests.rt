use crate::{LexError, Token, TokenKind, tokens};
use std::test::Fail;

// The places were counted by hand.
#[test]
fn the_tokens_of_a_statement(rt: HostRuntime) -> Result<(), Fail> {
    let want = [
        (0, 8, TokenKind::Word),
        (9, 10, TokenKind::Number(1)),
        (10, 11, TokenKind::Mark(b'/')),
        (11, 14, TokenKind::Number(7)),
        (14, 15, TokenKind::Mark(b'*')),
        (15, 19, TokenKind::Word),
        (29, 30, TokenKind::Mark(b';')),
    ];
    let found = tokens(rt.alloc(), b"relation 1/007*x_1a # [x,y]\n\t;")?;
    assert_eq!(rt; found.len(), want.len());
    for ((start, end, kind), token) in want.into_iter().zip(found.as_slice()) {
        assert_eq!(rt; *token, Token { start, end, kind });
    }
    Ok(())
}

#[test]
fn the_least_place_of_a_fault(rt: HostRuntime) {
    let alloc = rt.alloc();
    match tokens(alloc, b"x @ _") {
        Err(fault) => assert_eq!(rt; fault, LexError::BadByte(2)),
        Ok(_) => assert!(rt; false),
    }
}
