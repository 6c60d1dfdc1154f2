ghost use Rattle.std.specs.Prelude.{◌≡◌, ◌≤◌, ◌<◌, ◌+◌, length, take, drop, IfSome};
ghost use Rattle.run_model.specs.Signs.{spelled, sign_at, first_sign, goes_on};

use dt_tree::Sign;

/// All symbols, the longer ones first.
pub const SIGNS: [Sign; 26] = [
    Sign::In,
    Sign::Div,
    Sign::Mod,
    Sign::Arrow,
    Sign::Assign,
    Sign::Eq,
    Sign::Ne,
    Sign::Le,
    Sign::Ge,
    Sign::Open,
    Sign::Shut,
    Sign::OpenSquare,
    Sign::ShutSquare,
    Sign::Comma,
    Sign::Semi,
    Sign::Plus,
    Sign::Minus,
    Sign::Times,
    Sign::Lt,
    Sign::Gt,
    Sign::And,
    Sign::Or,
    Sign::Bang,
    Sign::Range,
    Sign::Tilde,
    Sign::Is,
];

/// The longest symbol that the bytes begin with.
pub fn sign_at(rest: &[u8]) -> Option<Sign>
    ensures value { result ≡ sign_at rest.now }
    ensures within { IfSome result (λ x. length (spelled x) ≤ length rest.now) }
{
    first_sign(&SIGNS, rest)
}

/// The first of the symbols that the bytes begin with.
fn first_sign(signs: &[Sign], rest: &[u8]) -> Option<Sign>
    ensures value { result ≡ first_sign signs.now rest.now }
    ensures within { IfSome result (λ x. length (spelled x) ≤ length rest.now) }
{
    for sign in signs {
        if rest.starts_with(spelled(*sign)) {
            return Some(*sign);
        }
    }
    None
}

/// How the symbol is written.
pub fn spelled(sign: Sign) -> &'static [u8]
    ensures value { result.now ≡ spelled sign }
    ensures some { 0 < length result.now }
{
    match sign {
        Sign::In => b"%in%",
        Sign::Div => b"%/%",
        Sign::Mod => b"%%",
        Sign::Arrow => b"<-",
        Sign::Assign => b":=",
        Sign::Eq => b"==",
        Sign::Ne => b"!=",
        Sign::Le => b"<=",
        Sign::Ge => b">=",
        Sign::Open => b"(",
        Sign::Shut => b")",
        Sign::OpenSquare => b"[",
        Sign::ShutSquare => b"]",
        Sign::Comma => b",",
        Sign::Semi => b";",
        Sign::Plus => b"+",
        Sign::Minus => b"-",
        Sign::Times => b"*",
        Sign::Lt => b"<",
        Sign::Gt => b">",
        Sign::And => b"&",
        Sign::Or => b"|",
        Sign::Bang => b"!",
        Sign::Range => b":",
        Sign::Tilde => b"~",
        Sign::Is => b"=",
    }
}

/// Whether a statement goes on over a line feed behind the symbol.
pub fn goes_on(sign: Sign) -> bool
    ensures { result ≡ goes_on sign }
{
    !matches!(
        sign,
        Sign::Open | Sign::Shut | Sign::OpenSquare | Sign::ShutSquare | Sign::Semi
    )
}
