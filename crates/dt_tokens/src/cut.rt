ghost use Rattle.std.specs.Prelude.{◌≡◌, ◌≤◌, ◌<◌, ◌+◌, ◌++◌, ◌^◌, length, drop, IfOk, IfErr, OnOk};
ghost use Rattle.std.specs.Prelude.{IsUtf8};
ghost use Rattle.run_model.specs.Places.{place_at};
ghost use Rattle.run_model.specs.Tokens.{deeper, joins, after, shown, ends_line, token_of, Spells};
ghost use Rattle.run_model.specs.Tokens.{IsFirstFault};

use crate::first::first;
use crate::place::{START, moved_over};
use crate::sign::goes_on;
use dt_tree::{Before, First, Piece, Place, Placed, ScriptFault, Sign, Token};
use std::alloc::{AllocError, AllocFailed, Global};

/// How many brackets are open behind the token, where `depth` are before it.
pub fn deeper(depth: u32, token: &Token) -> u32
    requires { depth < 2 ^ 31 }
    ensures value { result ≡ deeper depth token.now }
    ensures bound { result ≤ depth + 1 }
{
    match token {
        Token::Sign(Sign::Open | Sign::OpenSquare) => depth + 1,
        Token::Sign(Sign::Shut | Sign::ShutSquare) => depth.saturating_sub(1),
        _ => depth,
    }
}

/// Whether a statement goes on over a line feed behind the token.
fn joins(token: &Token) -> bool
    ensures { result ≡ joins token.now }
{
    match token {
        Token::Sign(sign) => goes_on(*sign),
        _ => false,
    }
}

/// What stands before the piece that follows this one.
fn after(before: Before, piece: &Piece) -> Before
    requires { before.depth < 2 ^ 31 }
    ensures value { result ≡ after before piece.now }
    ensures bound { result.depth ≤ before.depth + 1 }
{
    match piece {
        Piece::Spelled(token) => Before {
            depth: deeper(before.depth, token),
            joins: joins(token),
        },
        _ => before,
    }
}

/// Whether a line feed is a token there.
fn ends_line(before: Before) -> bool
    ensures { result ≡ ends_line before }
{
    before.depth == 0 && !before.joins
}

/// The token as the grammar sees it: `;` is a break.
fn shown(at: Place, token: Token) -> Token
    ensures { result ≡ shown at token }
{
    match token {
        Token::Sign(Sign::Semi) => Token::Break(at.line),
        token => token,
    }
}

/// Adds the token that the piece is, if it is one.
fn add(out: &mut Vec<Placed>, before: Before, at: Place, piece: Piece) -> Result<(), AllocError>
    requires { at.line < 2 ^ 31 + 1 }
    ensures { OnOk result (out.new.items ≡ out.old.items ++ token_of before at piece) }
{
    match piece {
        Piece::Layout => (),
        Piece::Feed => {
            if ends_line(before) {
                out.push(Placed {
                    at,
                    token: Token::Break(at.line + 1),
                })?;
            }
        }
        Piece::Spelled(token) => out.push(Placed {
            at,
            token: shown(at, token),
        })?,
    }
    Ok(())
}

/// The tokens that a text spells, or its first fault.
pub fn cut(alloc: Global, s: &[u8]) -> Result<Result<Vec<Placed>, ScriptFault>, AllocError>
    requires text { IsUtf8 s.now }
    requires small { length s.now < 2 ^ 31 }
    ensures tokens { IfOk result (λ r. IfOk r (λ v. Spells s.now v.items)) }
    ensures fault { IfOk result (λ r. IfErr r (IsFirstFault s.now)) }
{
    let mut out = Vec::new(alloc);
    let mut before = Before {
        depth: 0,
        joins: false,
    };
    let mut place = START;
    let mut i = 0;
    while i < s.len() {
        match first(alloc, s, i)? {
            First::Bad { offset } => {
                return Ok(Err(ScriptFault::Syntax(moved_over(place, s, i, i + offset))));
            }
            First::PastLimit => return Ok(Err(ScriptFault::Number(place))),
            First::Found { piece, len } => {
                let next = after(before, &piece);
                add(&mut out, before, place, piece)?;
                before = next;
                place = moved_over(place, s, i, i + len);
                i += len;
            }
        }
    }
    Ok(Ok(out))
}
