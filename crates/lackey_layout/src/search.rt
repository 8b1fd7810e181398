//! The place of a piece, and a place that is free.

ghost use Rattle.std.specs.Prelude.{◌≡◌, ◌≢◌, ℕ, ◌<◌, IfSome, IfNone, MatchOption, length};
ghost use Rattle.lackey_layout.specs.Places.{AreTaken, HasNone, HasPiece, IsFree, piece_at};

/// The place that a piece begins at to look for its own.
fn home(piece: u64) -> usize
    ensures { result < 2048 }
{
    (piece % 2048) as usize
}

/// The place of a piece, from its home on.
pub fn place(places: &[Option<u64>], piece: u64) -> Option<usize>
    requires { length places.now ≡ 2048 }
    ensures there { IfSome result (HasPiece places.now piece) }
    ensures none { IfNone result (HasNone places.now piece) }
{
    let home = home(piece);
    // As good as always.
    if places[home] == Some(piece) {
        return Some(home);
    }
    match first_with(&places[home..], Some(piece)) {
        Some(behind) => Some(home + behind),
        None => first_with(places, Some(piece)),
    }
}

/// A free place, from a piece's home on.
pub fn free(places: &[Option<u64>], piece: u64) -> Option<usize>
    requires { length places.now ≡ 2048 }
    ensures there { IfSome result (IsFree places.now) }
    ensures none { IfNone result (AreTaken places.now) }
{
    let home = home(piece);
    match first_with(&places[home..], None) {
        Some(behind) => Some(home + behind),
        None => first_with(places, None),
    }
}

/// The first place that has this.
fn first_with(places: &[Option<u64>], wanted: Option<u64>) -> Option<usize>
    ensures { MatchOption result ((i : ℕ) → i < length places.now → piece_at places.now i ≢ wanted)
        (λ i. (i < length places.now) × (piece_at places.now i ≡ wanted)) }
{
    for (place, piece) in places.iter().enumerate() {
        if *piece == wanted {
            return Some(place);
        }
    }
    None
}
