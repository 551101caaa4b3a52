use cov_lexer::{LexFault, TokenKind, lex, literal};
use cov_tree::Literal;
use std::alloc::Global;
use std::test::*;

/// The kinds and texts of the tokens, as `kind:text` with a space behind each, or the fault.
fn shown(alloc: Global, text: &[u8]) -> Result<Vec<u8>, Fail> {
    let mut out = Vec::new(alloc);
    if text.len() > 1_048_576 {
        return Ok(out);
    }
    match lex(alloc, text) {
        Ok(tokens) => {
            for token in &tokens {
                let start = token.at as usize;
                let end = start + token.len as usize;
                out.push(letter(token.kind))?;
                out.push(b':')?;
                out.extend_from_slice(text.get(start..end).ok_or("a token outside its text")?)?;
                out.push(b' ')?;
            }
        }
        Err(fault) => {
            let told = format!(in alloc; "{fault:?}")?;
            out.extend_from_slice(told.as_bytes())?;
        }
    }
    Ok(out)
}

fn letter(kind: TokenKind) -> u8 {
    match kind {
        TokenKind::Ident => b'i',
        TokenKind::Keyword => b'k',
        TokenKind::System => b's',
        TokenKind::Decimal => b'd',
        TokenKind::Based => b'b',
        TokenKind::Text => b't',
        TokenKind::Operator => b'o',
        TokenKind::NotSupported => b'n',
    }
}

#[test]
fn lexes_texts(rt: HostRuntime) -> Result<(), Fail> {
    let alloc = rt.alloc();
    let rows: [(&[u8], &[u8]); 28] = [
        (b"", b""),
        (b" \t\n\r\x0c", b""),
        (b"a _b$9 A", b"i:a i:_b$9 i:A "),
        (
            b"bins binsof sample item",
            b"k:bins k:binsof i:sample i:item ",
        ),
        (b"$display $ $_", b"s:$display o:$ s:$_ "),
        (b"12_3 0", b"d:12_3 d:0 "),
        (b"8 'h Ff 4'b1_0 'SD9", b"b:8 'h Ff b:4'b1_0 b:'SD9 "),
        (b"8\n'h0", b"d:8 b:'h0 "),
        (b"2'b12", b"b:2'b1 d:2 "),
        (b"'dx ' 'b_1", b"n:' i:dx n:' n:' i:b_1 "),
        (b"'h default", b"b:'h defa i:ult "),
        (b"\"a\\\" \"\" \"//\"", b"t:\"a\\\" t:\"\" t:\"//\" "),
        (b"a/**/b//c\nd /", b"i:a i:b i:d o:/ "),
        (b"/*/ */x/***/", b"i:x "),
        (b"// no end", b""),
        (b"<<<=>>>->=>", b"o:<<< o:=> o:>> o:-> o:=> "),
        (b"=== == = ==? =?", b"n:=== o:== o:= n:==? o:= o:? "),
        (
            b"a@@b ** :: ++ -- # '",
            b"i:a n:@@ i:b n:** n::: n:++ n:-- n:# n:' ",
        ),
        (b"a \\", b"BadByte { at: 2 }"),
        (b"\xff", b"BadByte { at: 0 }"),
        (b"` \"", b"BadByte { at: 0 }"),
        (b"a /* b", b"OpenComment { at: 2 }"),
        (b"/*/", b"OpenComment { at: 0 }"),
        (b"a \"b\nc\"", b"OpenString { at: 2 }"),
        (b"1 4'd16", b"LiteralTooWide { at: 2 }"),
        (b"9223372036854775808", b"LiteralTooWide { at: 0 }"),
        (b"0'h0", b"LiteralTooWide { at: 0 }"),
        (b"class c; \\", b"BadByte { at: 9 }"),
    ];
    for (text, expected) in &rows {
        assert_eq!(rt; shown(alloc, *text)?.as_slice(), *expected);
    }
    Ok(())
}

#[test]
fn knows_each_keyword_and_operator(rt: HostRuntime) -> Result<(), Fail> {
    let alloc = rt.alloc();
    let words =
        "typedef enum bit logic reg byte shortint int longint integer signed unsigned covergroup endgroup coverpoint cross bins illegal_bins ignore_bins wildcard iff default sequence binsof intersect with input ref new posedge negedge edge or option type_option class extends module program interface package parameter localparam real shortreal string time inside matches function";
    let operators =
        "( ) [ ] { } , ; : . @ = => -> + - * / % ~ ! & && | || ^ ~& ~| ~^ ^~ < <= > >= == != << >> <<< >>> ? $";
    let lacking = "@@ ** === !== ==? !=? ++ -- :: # '";
    let rows = [
        (words, TokenKind::Keyword, 50),
        (operators, TokenKind::Operator, 42),
        (lacking, TokenKind::NotSupported, 11),
    ];
    for (text, kind, count) in &rows {
        let tokens = lex(alloc, text.as_bytes())?;
        assert_eq!(rt; tokens.len(), *count);
        let mut at = 0;
        for token in &tokens {
            assert_eq!(rt; token.kind, *kind);
            assert_eq!(rt; token.at, at);
            at = token.at.wrapping_add(token.len).wrapping_add(1);
        }
    }
    Ok(())
}

#[test]
fn limits_names(rt: HostRuntime) -> Result<(), Fail> {
    let alloc = rt.alloc();
    let most = vec![in alloc; b'x'; 1024]?;
    assert_eq!(rt; lex(alloc, most.as_slice())?.len(), 1);
    let mut more = vec![in alloc; b'x'; 1026]?;
    more[0] = b' ';
    assert_eq!(rt;
        lex(alloc, more.as_slice()).err(),
        Some(LexFault::NameTooLong { at: 1 })
    );
    more[0] = b'$';
    assert_eq!(rt; lex(alloc, more.as_slice())?.len(), 1);
    Ok(())
}

#[test]
fn reads_literals(rt: HostRuntime) -> Result<(), Fail> {
    let rows: [(&[u8], u8, bool, bool, u64, u64); 22] = [
        (b"659", 32, false, true, 659, 0),
        (b"27_195_000", 32, false, true, 27195000, 0),
        (b"2147483647", 32, false, true, 2147483647, 0),
        (b"2147483648", 64, false, true, 2147483648, 0),
        (
            b"9223372036854775807",
            64,
            false,
            true,
            9223372036854775807,
            0,
        ),
        (b"'h 837FF", 32, false, false, 0x837ff, 0),
        (b"'o7460", 32, false, false, 0o7460, 0),
        (b"4'b1001", 4, true, false, 9, 0),
        (b"5 'D 3", 5, true, false, 3, 0),
        (b"3'b01x", 3, true, false, 2, 1),
        (b"12'hx", 12, true, false, 0, 0xfff),
        (b"16'hz", 16, true, false, 0, 0xffff),
        (b"4'shf", 4, true, true, 15, 0),
        (b"4'sd15", 4, true, true, 15, 0),
        (b"16'b0011_0101_0001_1111", 16, true, false, 0x351f, 0),
        (b"32 'h 12ab_f001", 32, true, false, 0x12abf001, 0),
        (b"'h0_0000_0001", 32, false, false, 1, 0),
        (b"'h1_0000_0000", 64, false, false, 0x100000000, 0),
        (b"'hx", 32, false, false, 0, 0xffffffff),
        (b"'hx_0000_0000", 64, false, false, 0, 0xffffffff00000000),
        (b"8'h?3", 8, true, false, 3, 0xf0),
        (b"12'b?1", 12, true, false, 1, 0xffe),
    ];
    for (text, width, sized, signed, bits, free) in &rows {
        let expected = Literal {
            width: *width,
            sized: *sized,
            signed: *signed,
            bits: *bits,
            free: *free,
        };
        assert_eq!(rt; literal(*text), Some(expected));
    }
    Ok(())
}

#[test]
fn refuses_what_is_no_literal(rt: HostRuntime) {
    let rows: [&[u8]; 10] = [
        b"abc",
        b"4'b12",
        b"3'hx",
        b"3'h?",
        b"4'd16",
        b"65'h0",
        b"0'b0",
        b"'h1_0000_0000_0000_0000",
        b"18446744073709551616'h0",
        b"9223372036854775808",
    ];
    for text in &rows {
        assert_eq!(rt; literal(*text), None);
    }
    assert!(rt; literal(b"4'b00000x").is_some());
}
