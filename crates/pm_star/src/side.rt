//! Where the parts of a star go.

ghost use Rattle.std.specs.Prelude.{◌≡◌};
ghost use Rattle.std.specs.List.{list_any};
ghost use Rattle.std.specs.Prelude.{◌==◌};
ghost use Rattle.pm_star.specs.Stars.{side_at};
ghost use Rattle.pm_star.specs.Levels.{across, facing};

/// Where a part of a star goes that is dealt into two.
#[derive(Clone, Copy, Debug, PartialEq, Eq)]
pub enum Side {
    Left,
    Right,
    /// To both, as it may be used any number of times.
    Both,
}

impl Side {
    /// The other side, where there is another.
    fn across(self) -> Self
        ensures { result ≡ across self }
    {
        match self {
            Self::Left => Self::Right,
            Self::Right => Self::Left,
            Self::Both => Self::Both,
        }
    }
}

/// Whether the place is listed.
fn is_listed(listed: &[u32], place: usize) -> bool
    ensures { result ≡ list_any (λ j. j == place) listed.now }
{
    listed.iter().any(|j| *j as usize == place)
}

/// The side of the part at the place: the first `shared` go to both sides, those at the listed places to the left, and all
/// others to the right.
pub fn side_at(shared: usize, listed: &[u32], place: usize) -> Side
    ensures { result ≡ side_at shared listed.now place }
{
    if place < shared {
        Side::Both
    } else if is_listed(listed, place) {
        Side::Left
    } else {
        Side::Right
    }
}

/// The same or, where `crossed`, the side across from it.
pub fn side_facing(crossed: bool, shared: usize, listed: &[u32], place: usize) -> Side
    ensures { result ≡ facing crossed (side_at shared listed.now) place }
{
    let side = side_at(shared, listed, place);
    if crossed { side.across() } else { side }
}
