//! The columns of GROUP BY, which may say items of the select list.
ghost use Rattle.std.specs.Prelude.{◌≡◌, ◌&&◌, ◌||◌, not, ◌++◌, [], ◌∷◌, ℕ, List, Bool, false, IfOk, OnOk, Option};
ghost use Rattle.client_statements.specs.tokens.Pieces.{lexeme_of, lexemes_of};
ghost use Rattle.client_words.specs.Aliases.{group_key, group_one, stays_group, grouped};
ghost use Rattle.client_words.specs.inner.Known.{known_of};

use crate::aliases::alias::{is_dot, is_group, push};
use crate::aliases::keys::push_first;
use crate::columns::Known;
use crate::distinct::ends_filter;
use crate::tables::name_of;
use client_statements::tokens::Token;
use sql_tree::Name;
use std::alloc::{AllocError, Global};
use vt_value::Items;

/// The names and the items of a select list, and the tables that are known.
#[derive(Clone, Copy)]
pub struct Listed<'s> {
    pub known: Known<'s>,
    pub names: &'s [Option<Name>],
    pub items: &'s [Token],
}

/// Puts what a token of GROUP BY says.
fn push_group_key(
    alloc: Global,
    text: &[u8],
    out: &mut Items<Token>,
    listed: &Listed<'_>,
    after_dot: bool,
    token: &Token,
    after: &[Token],
) -> Result<(), AllocError>
    ensures ok { OnOk result (lexemes_of text.now out.new ≡ lexemes_of text.now out.old
        ++ group_key (known_of listed.now.known) listed.now.names.now (lexemes_of text.now listed.now.items.now) after_dot (lexeme_of text.now token.now) (lexemes_of text.now after.now)) }
{
    let name = name_of(alloc, text, token)?;
    if listed.known.names_known(&name) {
        return push(out, token);
    }
    push_first(
        alloc,
        text,
        out,
        listed.names,
        listed.items,
        after_dot,
        token,
        after,
    )
}

/// Puts the token, or in GROUP BY what it says.
fn push_group_one(
    alloc: Global,
    text: &[u8],
    out: &mut Items<Token>,
    listed: &Listed<'_>,
    in_group: bool,
    after_dot: bool,
    token: &Token,
    after: &[Token],
) -> Result<(), AllocError>
    ensures ok { OnOk result (lexemes_of text.now out.new ≡ lexemes_of text.now out.old
        ++ group_one (known_of listed.now.known) listed.now.names.now (lexemes_of text.now listed.now.items.now) in_group after_dot (lexeme_of text.now token.now) (lexemes_of text.now after.now)) }
{
    if in_group {
        return push_group_key(alloc, text, out, listed, after_dot, token, after);
    }
    push(out, token)
}

/// Whether the tokens after this one are of GROUP BY.
fn stays_group(in_group: bool, token: &Token) -> bool
    ensures { (text : List ℕ) → result ≡ stays_group in_group (lexeme_of text token.now) }
{
    is_group(token) || (in_group && !ends_filter(token))
}

/// The tokens with items in place of the aliases after GROUP.
#[tactic(auto, unfolding(crate::specs::Aliases::grouped))]
pub fn grouped(
    alloc: Global,
    text: &[u8],
    listed: &Listed<'_>,
    tokens: &[Token],
) -> Result<Items<Token>, AllocError>
    ensures { IfOk result (λ out. lexemes_of text.now out
        ≡ grouped (known_of listed.now.known) listed.now.names.now (lexemes_of text.now listed.now.items.now) false false (lexemes_of text.now tokens.now)) }
{
    let mut out = Items::new(alloc);
    let mut rest = tokens;
    let mut in_group = false;
    let mut after_dot = false;
    loop {
        let [first, after @ ..] = rest else {
            return Ok(out);
        };
        push_group_one(
            alloc, text, &mut out, listed, in_group, after_dot, first, after,
        )?;
        in_group = stays_group(in_group, first);
        after_dot = is_dot(first);
        rest = after;
    }
}
