ghost use Rattle.std.specs.Prelude.{◌≡◌, IfOk};
ghost use Rattle.run_model.specs.TokenView as view;
ghost use Rattle.run_model.specs.GrammarTrees as grammar;
ghost use Rattle.script_frames.specs.Frames.{symbol_of};

use dt_base::{Cell, ColType, Op};
use dt_tree::{BinOp, Literal, Sign, Token};
use script_frames::{End, Symbol};
use std::alloc::AllocError;

/// What a literal word is to the grammar.
fn of_word(word: Literal) -> Symbol
    ensures { symbol_of result ≡ grammar.Literal (view.value_of word) }
{
    let (cell, kind) = match word {
        Literal::True => (Cell::Lgl(true), ColType::Lgl),
        Literal::False => (Cell::Lgl(false), ColType::Lgl),
        Literal::Na => (Cell::Na, ColType::Lgl),
        Literal::NaInt => (Cell::Na, ColType::Int),
        Literal::NaChr => (Cell::Na, ColType::Chr),
        Literal::Null => return Symbol::Null,
        Literal::Infinite => return Symbol::Infinite,
    };
    Symbol::Literal { cell, kind }
}

/// What a symbol is to the grammar.
fn of_sign(sign: Sign) -> Symbol
    ensures { symbol_of result ≡ view.symbol sign }
{
    match sign {
        Sign::In => Symbol::Operator(BinOp::In),
        Sign::Div => Symbol::Operator(BinOp::Arith(Op::Div)),
        Sign::Mod => Symbol::Operator(BinOp::Arith(Op::Mod)),
        Sign::Eq => Symbol::Operator(BinOp::Arith(Op::Eq)),
        Sign::Ne => Symbol::Operator(BinOp::Arith(Op::Ne)),
        Sign::Le => Symbol::Operator(BinOp::Arith(Op::Le)),
        Sign::Ge => Symbol::Operator(BinOp::Arith(Op::Ge)),
        Sign::Lt => Symbol::Operator(BinOp::Arith(Op::Lt)),
        Sign::Gt => Symbol::Operator(BinOp::Arith(Op::Gt)),
        Sign::Plus => Symbol::Operator(BinOp::Arith(Op::Add)),
        Sign::Minus => Symbol::Operator(BinOp::Arith(Op::Sub)),
        Sign::Times => Symbol::Operator(BinOp::Arith(Op::Mul)),
        Sign::And => Symbol::Operator(BinOp::Arith(Op::And)),
        Sign::Or => Symbol::Operator(BinOp::Arith(Op::Or)),
        Sign::Range => Symbol::Operator(BinOp::Range),
        Sign::Arrow => Symbol::Arrow,
        Sign::Assign => Symbol::End(End::Assign),
        Sign::Open => Symbol::Open,
        Sign::Shut => Symbol::End(End::Round),
        Sign::OpenSquare => Symbol::OpenSquare,
        Sign::ShutSquare => Symbol::End(End::Square),
        Sign::Comma => Symbol::End(End::Comma),
        Sign::Semi => Symbol::Semicolon,
        Sign::Bang => Symbol::Bang,
        Sign::Tilde => Symbol::End(End::Tilde),
        Sign::Is => Symbol::Is,
    }
}

/// What a token is to the grammar: an integer is Int, and a text is Chr.
pub fn symbol(token: &Token) -> Result<Symbol, AllocError>
    ensures { IfOk result (λ s. symbol_of s ≡ view.plain_token token.now) }
{
    Ok(match token {
        Token::Name(name) => Symbol::Name(name.copy()?),
        Token::Word(word) => of_word(*word),
        Token::Int(number) => Symbol::Literal {
            cell: Cell::Int(*number),
            kind: ColType::Int,
        },
        Token::Chr(text) => Symbol::Literal {
            cell: Cell::Text(text.copy()?),
            kind: ColType::Chr,
        },
        Token::Sign(sign) => of_sign(*sign),
        Token::Break(next) => Symbol::End(End::Break(*next)),
    })
}
