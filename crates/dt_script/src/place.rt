ghost use Rattle.std.specs.Prelude.{◌≡◌, ◌<◌, ◌+◌, ◌^◌, length};
ghost use Rattle.run_model.specs.Places.{moved, place_at};
ghost use Rattle.run_model.specs.Reading.{fault_place};
ghost use Rattle.run_model.specs.Tokens.{unmarked};

use dt_tree::{Place, Placed};

/// The bytes without a byte order mark at their start.
fn unmarked(bytes: &[u8]) -> &[u8]
    ensures { result.now ≡ unmarked bytes.now }
{
    if bytes.starts_with(b"\xEF\xBB\xBF") {
        let (_, rest) = bytes.split_at(3);
        rest
    } else {
        bytes
    }
}

/// The place behind the byte `b`, which stands at `place`.
fn moved(place: Place, b: u8) -> Place
    requires line { place.line < 2 ^ 31 + 1 }
    requires byte { place.byte < 2 ^ 31 + 1 }
    ensures { result ≡ moved place b }
{
    if b == b'\n' {
        Place {
            line: place.line + 1,
            byte: 1,
        }
    } else {
        Place {
            line: place.line,
            byte: place.byte + 1,
        }
    }
}

/// The place behind the last byte.
#[tactic(auto, using(dt_tokens::proofs::Places::place_more))]
fn end_of(text: &[u8]) -> Place
    requires { length text.now < 2 ^ 31 }
    ensures { result ≡ place_at text.now (length text.now) }
{
    let mut place = Place { line: 1, byte: 1 };
    for b in text {
        place = moved(place, *b);
    }
    place
}

/// The place of the token with this number, or the place behind the last byte where there is none.
#[tactic(auto, using(crate::proofs::FaultPlaces::places))]
pub fn place_of(bytes: &[u8], tokens: &[Placed], at: usize) -> Place
    requires { length bytes.now < 2 ^ 31 }
    ensures { result ≡ fault_place (unmarked bytes.now) tokens.now at }
{
    match tokens.get(at) {
        Some(placed) => placed.at,
        None => end_of(unmarked(bytes)),
    }
}
