//! Texts of SQL.
use sql_lexer::{Token, TokenKind, is_keyword, lex};
use sql_parser::parse;
use sql_tree::print;
use std::alloc::Global;
use test_fields::{CaseAnswer, Unanswered, text_of};
use vt_value::Refusal;

// The printed form of a text's tree.
fn form(alloc: Global, text: &[u8]) -> Result<Vec<u8>, Refusal> {
    let tree = parse(alloc, text)?;
    let form = print(alloc, &tree);
    drop(tree);
    Ok(form?)
}

/// The printed form of a text.
pub(crate) fn printed(alloc: Global, case: &str, told: &mut CaseAnswer) -> Result<(), Unanswered> {
    let text = text_of(alloc, case)?;
    let form = form(alloc, &text);
    drop(text);
    told.put_text(&form?);
    Ok(())
}

fn kind_name(kind: TokenKind) -> &'static str {
    match kind {
        TokenKind::Keyword(_) => "keyword",
        TokenKind::Word | TokenKind::Quoted => "identifier",
        TokenKind::Number => "number",
        TokenKind::Text => "text",
        TokenKind::Sign(_) | TokenKind::Operator(_) => "sign",
    }
}

fn put_tokens(told: &mut CaseAnswer, tokens: &[Token]) {
    for (i, token) in tokens.iter().enumerate() {
        told.put(if i == 0 { "" } else { " " });
        told.put(kind_name(token.kind));
        told.put(":");
        told.show(&token.start);
        told.put(":");
        told.show(&token.end);
    }
}

/// The tokens of a text.
pub(crate) fn tokens(alloc: Global, case: &str, told: &mut CaseAnswer) -> Result<(), Unanswered> {
    let text = text_of(alloc, case)?;
    let tokens = lex(alloc, &text);
    drop(text);
    put_tokens(told, &tokens?);
    Ok(())
}

/// Whether a word is a keyword.
pub(crate) fn keyword(case: &str, told: &mut CaseAnswer) -> Result<(), Unanswered> {
    told.put_truth(is_keyword(case.as_bytes()));
    Ok(())
}
