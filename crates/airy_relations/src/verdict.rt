ghost use Rattle.std.specs.Prelude.{◌≡◌, ◌↔◌, IsTrue};

use frac128::Frac;

/// The five relations of a quantum Airy structure, each an expression that keeps its value where i and j are exchanged:
/// together they say that its operators close (Kontsevich and Soibelman; Andersen, Borot, Chekhov and Orantin).
#[derive(Clone, Copy, Debug, PartialEq, Eq)]
pub enum Rel {
    /// `A^i_{jk}`
    AA,
    /// the sum over a of `B^i_{ja} A^a_{kl} + B^i_{ka} A^j_{al} + B^i_{la} A^j_{ak}`
    BA,
    /// the sum over a of `B^i_{ja} B^a_{kl} + B^i_{ka} B^j_{al} + C^i_{la} A^j_{ak}`
    BB,
    /// the sum over a of `B^i_{ja} C^a_{kl} + C^i_{ka} B^j_{al} + C^i_{la} B^j_{ak}`
    BC,
    /// the sum over a of `B^i_{ja} D^a`, and one half of the sum over a and b of `C^i_{ab} A^j_{ab}`
    D,
}

/// What a check finds: that all places are fine, or the first one that isn't. A place is the indices i, j, k and l; those
/// that the relation lacks are 0.
#[derive(Clone, Copy, Debug, PartialEq, Eq)]
pub enum Verdict {
    /// At every place both sides are obtained and equal.
    Closed,
    /// Both sides of the place are obtained, and they differ: left is the expression as it is written, right the one with
    /// i and j exchanged.
    Differs {
        rel: Rel,
        place: [u8; 4],
        left: Frac,
        right: Frac,
    },
    /// A step of the ordered sum of a side of the place leaves the range.
    Over {
        rel: Rel,
        place: [u8; 4],
    },
}

impl Verdict {
    /// Whether every place is fine.
    pub(crate) fn is_closed(&self) -> bool
        ensures { IsTrue result ↔ (self.now ≡ Verdict.Closed) }
    {
        matches!(self, Verdict::Closed)
    }
}
