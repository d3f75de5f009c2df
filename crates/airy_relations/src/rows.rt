ghost use Rattle.std.specs.Prelude.{◌≡◌, ℕ, List, Some, None};
ghost use Rattle.airy_math.specs.Rational.{ℚ};
ghost use Rattle.airy_relations.specs.Rows.{first_at, first_index, behind, others, other_of, lesser};

use crate::steps::zero;
use frac128::Frac;

/// Values by an index ascending, which are read from their front.
pub(crate) trait Values {
    ghost left: { Self → List (ℕ × ℚ) };

    /// The index of the first one that is left.
    fn index(&mut self) -> Option<u8>
        ensures value { result ≡ first_index (left self.old) }
        ensures rest { left self.new ≡ left self.old };

    /// The value at the index a, which is passed; 0 where what is left doesn't begin with a.
    fn take_at(&mut self, a: u8) -> Frac
        ensures value { result ≡ first_at a (left self.old) }
        ensures rest { left self.new ≡ behind a (left self.old) };
}

/// A row of entries by their index ascending.
#[derive(Clone, Copy)]
pub(crate) struct Row<'a> {
    pub(crate) rest: &'a [(u8, Frac)],
}

impl Values for Row<'_> {
    ghost left = { λ r. r.rest.now };

    fn index(&mut self) -> Option<u8> {
        let (index, _) = self.rest.first()?;
        Some(*index)
    }

    fn take_at(&mut self, a: u8) -> Frac {
        let Some(((index, value), rest)) = self.rest.split_first() else {
            return zero();
        };
        if *index != a {
            return zero();
        }
        self.rest = rest;
        *value
    }
}

/// The other index of a pair that has the index l.
fn other_of(b: u8, c: u8, l: u8) -> Option<u8>
    ensures { result ≡ other_of b c l }
{
    if b == l {
        Some(c)
    } else if c == l {
        Some(b)
    } else {
        None
    }
}

/// The entries of a list of pairs that have the index l, by their other index ascending.
#[derive(Clone, Copy)]
pub(crate) struct Line<'a> {
    pub(crate) rest: &'a [(u8, u8, Frac)],
    pub(crate) l: u8,
}

impl Values for Line<'_> {
    ghost left = { λ r. others r.l r.rest.now };

    fn index(&mut self) -> Option<u8> {
        while let Some(((b, c, _), rest)) = self.rest.split_first() {
            if let Some(other) = other_of(*b, *c, self.l) {
                return Some(other);
            }
            self.rest = rest;
        }
        None
    }

    fn take_at(&mut self, a: u8) -> Frac {
        while let Some(((b, c, value), rest)) = self.rest.split_first() {
            let Some(other) = other_of(*b, *c, self.l) else {
                self.rest = rest;
                continue;
            };
            if other != a {
                return zero();
            }
            self.rest = rest;
            return *value;
        }
        zero()
    }
}

/// The lesser of two indices, where there is one.
fn lesser(x: Option<u8>, y: Option<u8>) -> Option<u8>
    ensures { result ≡ lesser x y }
{
    match (x, y) {
        (Some(a), Some(b)) => Some(a.min(b)),
        (Some(a), None) => Some(a),
        (None, other) => other,
    }
}

/// The least of three indices, where there is one.
pub(crate) fn least(x: Option<u8>, y: Option<u8>, z: Option<u8>) -> Option<u8>
    ensures { result ≡ lesser x (lesser y z) }
{
    lesser(x, lesser(y, z))
}
