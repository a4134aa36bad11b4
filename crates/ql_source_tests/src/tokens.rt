use ql_base::{NoMemory, push_bytes, push_number};
use ql_lex::{Token, TokenKind, tokens};
use ql_test_inputs::{check_table, spelled};
use std::alloc::Global;
use std::test::Fail;

// Texts with their tokens (the kind's first letter and the span), from an independent implementation.
const TOKENS: &str = r#"
 -> 
 ␉␍␊ -> 
a -> n0-1
a1_b -> n0-4
op -> k0-2
ops -> n0-3
forall a. vis -> k0-6 n7-8 m8-9 k10-13
a<=b -> n0-1 m1-3 n3-4
a<b -> n0-1 m1-2 n2-3
a< =b -> n0-1 m1-2 m3-4 n4-5
:= -> m0-2
=> -> m0-2
==> -> m0-2 m2-3
!= -> m0-2
/\ -> m0-2
\/ -> m0-2
{}()[],;:.+-*|& -> m0-1 m1-2 m2-3 m3-4 m4-5 m5-6 m6-7 m7-8 m8-9 m9-10 m10-11 m11-12 m12-13 m13-14 m14-15
0 -> i0-1
9223372036854775807 -> i0-19
12 a -> i0-2 n3-4
"" -> t0-2
"a b" -> t0-5
"xxxxxxxxxxxxxxxxxxxxxxxxxxxxxxxxxxxxxxxxxxxxxxxxxxxxxxxxxxxxxxxx" -> t0-66
aaaaaaaaaaaaaaaaaaaaaaaaaaaaaaaa -> n0-32
#x␍y␊a -> n5-6
a#ÿ -> n0-1
sameobj -> k0-7
x:int=0; -> n0-1 m1-2 k2-5 m5-6 i6-7 m7-8
-5 -> m0-1 i1-2
1.5 -> i0-1 m1-2 i2-3
transactiontransaction -> n0-22
"#;

#[test]
fn texts_have_tokens(rt: HostRuntime) -> Result<(), Fail> {
    check_table(rt.alloc(), TOKENS, tokens_of)
}

fn tokens_of(alloc: Global, row: &str) -> Result<Vec<u8>, NoMemory> {
    if row.len() > 1_048_576 {
        return spelled(alloc, "too long");
    }
    match tokens(alloc, row.as_bytes()) {
        Ok(found) => listed(alloc, &found),
        Err(_) => spelled(alloc, "a fault"),
    }
}

fn listed(alloc: Global, found: &[Token]) -> Result<Vec<u8>, NoMemory> {
    let mut out = Vec::new(alloc);
    for token in found {
        push_token(&mut out, token)?;
    }
    Ok(out)
}

fn push_token(out: &mut Vec<u8>, token: &Token) -> Result<(), NoMemory> {
    let between = if out.is_empty() { "" } else { " " };
    push_bytes(out, between.as_bytes())?;
    push_bytes(out, letter(token.what).as_bytes())?;
    push_number(out, token.from)?;
    push_bytes(out, b"-")?;
    push_number(out, token.to)
}

fn letter(kind: TokenKind) -> &'static str {
    match kind {
        TokenKind::Name => "n",
        TokenKind::Int => "i",
        TokenKind::Text => "t",
        TokenKind::Mark => "m",
        TokenKind::Keyword => "k",
    }
}
