ghost use Rattle.std.specs.Prelude.{◌≡◌, ◌<◌, ◌+◌, length, take, drop, IfOk, IsUtf8, slice_index};
ghost use Rattle.run_model.specs.Bytes.{is_in, run};
ghost use Rattle.run_model.specs.First.{IsWithin, quoted_at, word_of, word_at};

use crate::bytes::{is_at, run_end};
use crate::utf8::{inside, text_of};
use dt_base::Text;
use dt_tree::{Class, First, Literal, Piece, Token};
use std::alloc::{AllocError, Global};

/// The name or literal that the bytes begin with.
pub fn word_at(alloc: Global, rest: &[u8]) -> Result<First, AllocError>
    requires some { 0 < length rest.now }
    requires ascii { slice_index rest.now 0 < 128 }
    ensures value { IfOk result (λ f. f ≡ word_at rest.now) }
    ensures within { IfOk result (IsWithin (length rest.now)) }
{
    let len = run_end(Class::Name, rest);
    let (word, _) = rest.split_at(len);
    let token = word_of(alloc, text_of(word))?;
    Ok(First::Found {
        piece: Piece::Spelled(token),
        len,
    })
}

/// The literal that the word is, or the name.
fn word_of(alloc: Global, word: &str) -> Result<Token, AllocError>
    ensures { IfOk result (λ t. t ≡ word_of word.now) }
{
    if word == "TRUE" {
        return Ok(Token::Word(Literal::True));
    }
    if word == "FALSE" {
        return Ok(Token::Word(Literal::False));
    }
    if word == "NA" {
        return Ok(Token::Word(Literal::Na));
    }
    if word == "NA_integer_" {
        return Ok(Token::Word(Literal::NaInt));
    }
    if word == "NA_character_" {
        return Ok(Token::Word(Literal::NaChr));
    }
    if word == "NULL" {
        return Ok(Token::Word(Literal::Null));
    }
    if word == "Inf" {
        return Ok(Token::Word(Literal::Infinite));
    }
    Ok(Token::Name(Text::make(alloc, word)?))
}

/// The name between backquotes that begins at `at`.
pub fn quoted_at(alloc: Global, s: &[u8], at: usize) -> Result<First, AllocError>
    requires text { IsUtf8 s.now }
    requires at { at < length s.now }
    requires ascii { slice_index (drop at s.now) 0 < 128 }
    ensures value { IfOk result (λ f. f ≡ quoted_at (drop at s.now)) }
    ensures within { IfOk result (IsWithin (length (drop at s.now))) }
{
    let (_, rest) = s.split_at(at);
    let end = run_end(Class::Quoted, rest);
    if end == 1 || !is_at(rest, end, b'`') {
        return Ok(First::Bad { offset: 0 });
    }
    let name = Text::make(alloc, inside(s, at, end - 1))?;
    Ok(First::Found {
        piece: Piece::Spelled(Token::Name(name)),
        len: end + 1,
    })
}
