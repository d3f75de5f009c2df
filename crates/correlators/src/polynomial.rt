use arrayvec::ArrayVec;
use frac128::Frac;

/// A term of a polynomial in the letter p and the lengths L1, L2, ..: the coefficient times p to the power `letter` times the product of
/// the Lk to the k-th of the `powers`.
#[derive(Drop)]
pub struct Term {
    pub coef: Frac,
    pub letter: u16,
    pub powers: ArrayVec<u8, 26>,
}

/// A polynomial: the sum of its terms.
#[derive(Drop)]
pub struct Poly {
    pub terms: Vec<Term>,
}
