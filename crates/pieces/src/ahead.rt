// How many whole records lie one behind the other in what is ahead of a place.
ghost use Rattle.std.specs.Prelude.{◌≡◌, ◌+◌, ◌*◌, ◌≤◌, length, drop};
ghost use Rattle.reading.specs.Records.{walk_within};
ghost use Rattle.pieces.specs.Stretch.{stretch_of};

use crate::Standing;

// How many whole records lie one behind the other from a place on, at most so many. The piece is long enough for these.
fn whole_among(piece: &[u8], place: usize, most: usize) -> usize
    requires { place + 49 * most ≤ length piece.now }
    ensures { (result ≡ length (walk_within most (drop place piece.now)).records) × (result ≤ most) }
{
    for n in 0..most {
        if 1 < piece[place + 49 * n] {
            return n;
        }
    }
    most
}

// How many whole records a stretch has.
pub(crate) fn whole_ahead(standing: Standing, piece: &[u8], place: usize, most: usize) -> usize
    ensures { result ≡ length (stretch_of most standing piece.now place) }
{
    let end = piece.len();
    if end <= place || standing.stage != 1 || standing.count % 49 != 0 {
        return 0;
    }
    let fit = ((end - place) / 49) as u64;
    let within = (most as u64).min(standing.left / 49);
    whole_among(piece, place, fit.min(within) as usize)
}
