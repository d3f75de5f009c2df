ghost use Rattle.std.specs.Prelude.{◌≡◌, ◌∷◌, IfSome};
ghost use Rattle.airymore.specs.Places.{from, from_any, places, IsPlace};

/// The indices of a number of a bracket: it stands at a in that of the operators i and j.
#[derive(Clone, Copy)]
pub(crate) struct Place {
    pub(crate) i: u8,
    pub(crate) j: u8,
    pub(crate) a: u8,
}

/// The first place below dim, where there is one.
pub(crate) fn first_place(dim: u8) -> Option<Place>
    ensures all { from_any dim result ≡ places dim }
    ensures place { IfSome result (IsPlace dim) }
{
    if dim < 2 {
        return None;
    }
    Some(Place { i: 0, j: 1, a: 0 })
}

/// The place behind another, where there is one.
pub(crate) fn next_place(dim: u8, place: Place) -> Option<Place>
    requires { IsPlace dim place }
    ensures behind { from dim place ≡ place ∷ from_any dim result }
    ensures place { IfSome result (IsPlace dim) }
{
    let Place { i, j, a } = place;
    if a + 1 < dim {
        return Some(Place { i, j, a: a + 1 });
    }
    if j + 1 < dim {
        return Some(Place { i, j: j + 1, a: 0 });
    }
    if i + 2 < dim {
        return Some(Place {
            i: i + 1,
            j: i + 2,
            a: 0,
        });
    }
    None
}
