ghost use Rattle.std.specs.Prelude.{◌≡◌, ◌≤◌, ◌<◌, ◌+◌, length, ◌^◌};
ghost use Rattle.run_model.specs.Places.{moved, place_at};

use dt_tree::Place;

/// The place of the first byte.
pub const START: Place = Place { line: 1, byte: 1 };

/// The place of the byte `to`, from that of the byte `from`.
#[tactic(auto, using(crate::proofs::Places::place_more))]
pub fn moved_over(place: Place, s: &[u8], from: usize, to: usize) -> Place
    requires order { from ≤ to }
    requires within { to ≤ length s.now }
    requires small { length s.now < 2 ^ 31 }
    requires place { place ≡ place_at s.now from }
    requires line { place.line ≤ from + 1 }
    requires byte { place.byte ≤ from + 1 }
    ensures place { result ≡ place_at s.now to }
    ensures line { result.line ≤ to + 1 }
    ensures byte { result.byte ≤ to + 1 }
{
    let mut place = place;
    for i in from..to {
        place = moved(place, s[i]);
    }
    place
}

/// The place behind the byte `b`, which stands at `place`.
fn moved(place: Place, b: u8) -> Place
    requires line { place.line < 2 ^ 31 + 1 }
    requires byte { place.byte < 2 ^ 31 + 1 }
    ensures { result ≡ moved place b }
{
    if b == b'\n' {
        Place {
            line: place.line + 1,
            byte: 1,
        }
    } else {
        Place {
            line: place.line,
            byte: place.byte + 1,
        }
    }
}
