//! How tokens are spelled in SQL.
ghost use Rattle.std.specs.Prelude.{◌≡◌, ◌++◌, [], ◌∷◌, codes, flat_map, OnOk};
ghost use Rattle.sql_tree.specs.Printing.{quoted, quoted_byte};
ghost use Rattle.client_statements.specs.tokens.Pieces.{lexeme_of, sign_text};
ghost use Rattle.client_words.specs.Spelling.{operator_text, word_text, spelled};

use client_statements::tokens::{Keyword, Sign, Token, TokenKind, said};
use std::alloc::{AllocError, Global};

/// Puts a text as it is.
pub fn put(out: &mut Vec<u8>, text: &[u8]) -> Result<(), AllocError>
    ensures ok { OnOk result (out.new.items ≡ out.old.items ++ text.now) }
{
    out.extend_from_slice(text)?;
    Ok(())
}

fn put_quoted_byte(out: &mut Vec<u8>, byte: u8) -> Result<(), AllocError>
    ensures ok { OnOk result (out.new.items ≡ out.old.items ++ quoted_byte byte) }
{
    match byte {
        b'\'' => put(out, b"''"),
        b'\\' => put(out, b"\\\\"),
        _ => {
            out.push(byte)?;
            Ok(())
        }
    }
}

fn put_quoted_bytes(out: &mut Vec<u8>, bytes: &[u8]) -> Result<(), AllocError>
    ensures ok { OnOk result (out.new.items ≡ out.old.items ++ flat_map quoted_byte bytes.now) }
{
    for byte in bytes {
        put_quoted_byte(out, *byte)?;
    }
    Ok(())
}

/// Puts a text in single quotes.
fn put_quoted(out: &mut Vec<u8>, bytes: &[u8]) -> Result<(), AllocError>
    ensures ok { OnOk result (out.new.items ≡ out.old.items ++ quoted bytes.now) }
{
    put(out, b"'")?;
    put_quoted_bytes(out, bytes)?;
    put(out, b"'")
}

/// Puts a name in backquotes.
fn put_named(out: &mut Vec<u8>, name: &[u8]) -> Result<(), AllocError>
    ensures ok { OnOk result (out.new.items ≡ out.old.items ++ (codes "`" ++ name.now ++ codes "`")) }
{
    put(out, b"`")?;
    put(out, name)?;
    put(out, b"`")
}

/// Puts a variable after its marks.
fn put_system(out: &mut Vec<u8>, name: &[u8]) -> Result<(), AllocError>
    ensures ok { OnOk result (out.new.items ≡ out.old.items ++ (codes "@@" ++ name.now)) }
{
    put(out, b"@@")?;
    put(out, name)
}

fn put_operator(out: &mut Vec<u8>, operator: &[u8]) -> Result<(), AllocError>
    ensures ok { OnOk result (out.new.items ≡ out.old.items ++ operator_text operator.now) }
{
    match operator {
        b"&&" => put(out, b"AND"),
        b"||" => put(out, b"OR"),
        _ => put(out, operator),
    }
}

fn put_sign(out: &mut Vec<u8>, sign: Sign) -> Result<(), AllocError>
    ensures ok { OnOk result (out.new.items ≡ out.old.items ++ sign_text sign) }
{
    match sign {
        Sign::Equal => put(out, b"="),
        Sign::Assign => put(out, b":="),
        Sign::Comma => put(out, b","),
        Sign::Dot => put(out, b"."),
        Sign::LeftParenthesis => put(out, b"("),
        Sign::RightParenthesis => put(out, b")"),
        Sign::Semicolon => put(out, b";"),
        Sign::Star => put(out, b"*"),
        Sign::Minus => put(out, b"-"),
    }
}

/// Puts a token as SQL spells it.
fn put_text(alloc: Global, out: &mut Vec<u8>, text: &[u8], token: &Token) -> Result<(), AllocError>
    ensures ok { OnOk result (out.new.items ≡ out.old.items ++ word_text (lexeme_of text.now token.now)) }
{
    let said = said(alloc, text, token)?;
    match token.kind {
        TokenKind::Word(Some(Keyword::True)) => put(out, b"1"),
        TokenKind::Word(Some(Keyword::False)) => put(out, b"0"),
        TokenKind::Word(_) | TokenKind::Number => put(out, said.as_slice()),
        TokenKind::Name => put_named(out, said.as_slice()),
        TokenKind::Variable => put_system(out, said.as_slice()),
        TokenKind::Text => put_quoted(out, said.as_slice()),
        TokenKind::Operator => put_operator(out, said.as_slice()),
        TokenKind::Sign(sign) => put_sign(out, sign),
    }
}

/// Puts a token after a blank.
pub fn put_word(
    alloc: Global,
    out: &mut Vec<u8>,
    text: &[u8],
    token: &Token,
) -> Result<(), AllocError>
    ensures ok { OnOk result (out.new.items ≡ out.old.items ++ spelled (lexeme_of text.now token.now ∷ [])) }
{
    put(out, b" ")?;
    put_text(alloc, out, text, token)
}
