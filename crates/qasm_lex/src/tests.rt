//! Texts with their tokens, worked out by hand.

use crate::{LexFault, TokenKind, lex};
use std::alloc::Global;
use std::process::Abort;
use std::test::Fail;

// A sign is shown as it is written, another kind by a letter.
fn mark(kind: TokenKind) -> &'static str {
    match kind {
        TokenKind::Word => "w",
        TokenKind::Int => "i",
        TokenKind::Real => "r",
        TokenKind::Text => "t",
        TokenKind::Semi => ";",
        TokenKind::Comma => ",",
        TokenKind::LParen => "(",
        TokenKind::RParen => ")",
        TokenKind::LBracket => "[",
        TokenKind::RBracket => "]",
        TokenKind::LBrace => "{",
        TokenKind::RBrace => "}",
        TokenKind::Plus => "+",
        TokenKind::Minus => "-",
        TokenKind::Times => "*",
        TokenKind::Over => "/",
        TokenKind::Power => "^",
        TokenKind::Arrow => "->",
        TokenKind::Equal => "==",
    }
}

// The tokens, each as its kind and its place behind a space; or the fault.
fn shown(rt: &impl Abort, alloc: Global, text: &[u8]) -> String {
    assert!(rt; text.len() <= 16777216);
    let mut shown = String::new(alloc);
    match lex(alloc, text) {
        Ok(tokens) => {
            for t in &tokens {
                let one = format!(in alloc; " {}{}-{}", mark(t.kind), t.start, t.end);
                shown
                    .push_str(one.expect(rt, "memory").as_str())
                    .expect(rt, "memory");
            }
        }
        Err(fault) => {
            let one = format!(in alloc; "{fault}");
            shown
                .push_str(one.expect(rt, "memory").as_str())
                .expect(rt, "memory");
        }
    }
    shown
}

// Each text is shown so.
fn compare(rt: &impl Abort, alloc: Global, rows: &[(&[u8], &str)]) {
    for (text, want) in rows {
        let got = shown(rt, alloc, text);
        assert_eq!(rt; got.as_str(), *want);
    }
}

#[test]
fn dollar_is_a_bad_byte(rt: HostRuntime) {
    let fault = lex(rt.alloc(), b"$").err();
    assert_eq!(rt; fault, Some(LexFault::BadByte { at: 0 }));
}

#[test]
fn each_kind(rt: HostRuntime) {
    let text = b"a1_ 12 1.5 \"t\" ;,()[]{}+-*/^->==";
    let want = " w0-3 i4-6 r7-10 t11-14 ;15-16 ,16-17 (17-18 )18-19 [19-20 ]20-21 {21-22 }22-23 \
                +23-24 -24-25 *25-26 /26-27 ^27-28 ->28-30 ==30-32";
    assert_eq!(rt; shown(&rt, rt.alloc(), text).as_str(), want);
}

#[test]
fn numbers(rt: HostRuntime) {
    let rows = [
        (b"007".as_slice(), " i0-3"),
        (b"99999999999", " i0-11"),
        (b"1x", " i0-1 w1-2"),
        (b"-1", " -0-1 i1-2"),
        (b"2.0;", " r0-3 ;3-4"),
        (b"1.", " r0-2"),
        (b".5", " r0-2"),
        (b"1..2", " r0-2 r2-4"),
        (b"1.5.2", " r0-3 r3-5"),
        (b"1e", " i0-1 w1-2"),
        (b"1e+", " i0-1 w1-2 +2-3"),
        (b"1e5", " r0-3"),
        (b"1E-05", " r0-5"),
        (b"1.e5", " r0-4"),
        (b".5e+7", " r0-5"),
        (b"1.5e", " r0-3 w3-4"),
        (b"1.5e-", " r0-3 w3-4 -4-5"),
        (b"1e+5e2", " r0-4 w4-6"),
        (b"1e5.", "no token begins at byte 3"),
        (b".", "no token begins at byte 0"),
        (b"1 .e5", "no token begins at byte 2"),
    ];
    compare(&rt, rt.alloc(), &rows);
}

#[test]
fn words_and_signs(rt: HostRuntime) {
    let rows = [
        (b"h q[0];".as_slice(), " w0-1 w2-3 [3-4 i4-5 ]5-6 ;6-7"),
        (
            b"if(c==1)x q;",
            " w0-2 (2-3 w3-4 ==4-6 i6-7 )7-8 w8-9 w10-11 ;11-12",
        ),
        (b"a^2*(b)", " w0-1 ^1-2 i2-3 *3-4 (4-5 w5-6 )6-7"),
        (b"x_1", " w0-3"),
        (b"_x", "no token begins at byte 0"),
        (b"x _", "no token begins at byte 2"),
        (b"a->b", " w0-1 ->1-3 w3-4"),
        (b"-->", " -0-1 ->1-3"),
        (b"- >", "no token begins at byte 2"),
        (b"=", "no token begins at byte 0"),
        (b"===", "no token begins at byte 2"),
        (b"a\xff", "no token begins at byte 1"),
        (b"\x0b", "no token begins at byte 0"),
    ];
    compare(&rt, rt.alloc(), &rows);
}

#[test]
fn gaps_and_strings(rt: HostRuntime) {
    let rows = [
        (b"".as_slice(), ""),
        (b" \t\r\n\x0c", ""),
        (b"//", ""),
        (b"x// y", " w0-1"),
        (b"a/b", " w0-1 /1-2 w2-3"),
        (b"a / / b", " w0-1 /2-3 /4-5 w6-7"),
        (b"//\n/", " /3-4"),
        (b"// \"\x80'\n;", " ;7-8"),
        (b"//x\ry\n;", " ;6-7"),
        (b"//a\n//b\n c", " w9-10"),
        (b"\"\"", " t0-2"),
        (b"\"a\"b", " t0-3 w3-4"),
        (b"\"a\x80//\t'\"", " t0-8"),
        (b"\"ab", "the string at byte 0 is not closed on its line"),
        (
            b"x \"a\n\"",
            "the string at byte 2 is not closed on its line",
        ),
        (
            b"\"a\" \"b",
            "the string at byte 4 is not closed on its line",
        ),
        (b"\"a\n$", "the string at byte 0 is not closed on its line"),
        (b"; $ \"", "no token begins at byte 2"),
        (b"\"a\"\"", "the string at byte 3 is not closed on its line"),
    ];
    compare(&rt, rt.alloc(), &rows);
}

// A gate on a line, as often as makes more than a million bytes: nine tokens each.
#[test]
fn a_long_text(rt: HostRuntime) -> Result<(), Fail> {
    let line = b"cx q[0],q[1]; // next\n";
    let mut text = Vec::new(rt.alloc());
    for _ in 0..50_000 {
        text.extend_from_slice(line)?;
    }
    assert!(rt; text.len() <= 16777216);
    assert_eq!(rt; text.len(), 1_100_000);
    let tokens = lex(rt.alloc(), text.as_slice()).expect(&rt, "tokens");
    assert_eq!(rt; tokens.len(), 550_000);
    Ok(())
}
