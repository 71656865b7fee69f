use rctl_grammar::{Compare, End, Kind, Word};
use rctl_lexer::lex;
use std::test::*;

#[test]
fn tokens_of_a_comparison(rt: HostRuntime) -> Result<(), Fail> {
    let lexed = lex(rt.alloc(), b"EF P.x\t<= -3")?;
    assert_eq!(rt; lexed.end, End::Ends(12));
    let tokens = lexed.tokens.as_slice();
    let places = [0, 3, 4, 5, 7, 10];
    assert_eq!(rt; tokens.len(), places.len());
    for (token, place) in tokens.iter().zip(places) {
        assert_eq!(rt; token.at, place);
    }
    assert!(rt; matches!(&tokens[0].kind, Kind::Word(Word::Ef, _)));
    assert!(rt;
        matches!(
            &tokens[1].kind,
            Kind::Word(Word::Plain, name) if name.as_bytes() == b"P".as_slice()
        )
    );
    assert!(rt; matches!(tokens[2].kind, Kind::Dot));
    assert!(rt; matches!(tokens[4].kind, Kind::Compare(Compare::Le)));
    assert!(rt; matches!(tokens[5].kind, Kind::Number(Some(-3))));
    Ok(())
}

#[test]
fn the_first_byte_of_a_bad_token(rt: HostRuntime) -> Result<(), Fail> {
    let lexed = lex(rt.alloc(), b"EF P.x = 02")?;
    assert_eq!(rt; lexed.end, End::BadToken(9));
    assert_eq!(rt; lexed.tokens.len(), 5);
    Ok(())
}
