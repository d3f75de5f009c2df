//! The tensors A, B, C and D of a quantum Airy structure, as their entries that aren't 0.
#![tactic(auto)]

mod grades;
mod grid;
mod pair_row;
mod pairs;
mod parts;
mod row;
mod tensors;

pub use airy_math::{Law, Shape};
pub use parts::Part;
pub use tensors::{NoMemory, PutErr, Tensors};

#[cfg(test)]
mod tests {
    use super::*;
    use frac128::Frac;
    use std::test::Fail;

    #[tactic(auto, unfolding(crate::specs::Grades::IsSmallLaw))]
    #[test]
    fn puts_are_refused_in_order(rt: HostRuntime) -> Result<(), Fail> {
        let one = Frac::whole(1);
        let wk = Shape::Exact(Law { per_g: 3, per_n: 1 });
        let mut tensors = Tensors::empty(rt.alloc(), 2, wk, false)?;
        assert_eq!(rt; tensors.put_b(0, 0, 0, one), Err(PutErr::Grade));
        assert_eq!(rt; tensors.put_b(0, 1, 0, one), Ok(()));
        assert_eq!(rt; tensors.put_b(0, 1, 0, one), Err(PutErr::Twice));
        assert_eq!(rt; tensors.put_b(0, 1, 2, one), Err(PutErr::Index));
        assert_eq!(rt; tensors.put_b(0, 0, 0, Frac::whole(0)), Ok(()));
        assert_eq!(rt; tensors.row_b(0, 0).len(), 0);
        Ok(())
    }

    #[tactic(auto, unfolding(crate::specs::Grades::IsSmallLaw))]
    #[test]
    fn a_row_ascends_whatever_the_order_of_puts(rt: HostRuntime) -> Result<(), Fail> {
        let (one, two) = (Frac::whole(1), Frac::whole(2));
        let mut tensors = Tensors::empty(rt.alloc(), 4, Shape::All, false)?;
        assert_eq!(rt; tensors.put_c(2, 3, 1, one), Ok(()));
        assert_eq!(rt; tensors.put_c(2, 0, 2, two), Ok(()));
        let row = [(0u8, 2u8, two), (1, 3, one)];
        assert_eq!(rt; tensors.row_c(2), row.as_slice());
        Ok(())
    }

    #[tactic(auto, unfolding(crate::specs::Grades::IsSmallLaw))]
    #[test]
    fn look_ups(rt: HostRuntime) -> Result<(), Fail> {
        let (one, two) = (Frac::whole(1), Frac::whole(2));
        let mut tensors = Tensors::empty(rt.alloc(), 3, Shape::All, false)?;
        assert_eq!(rt; tensors.put_a(1, 2, 0, two), Ok(()));
        assert_eq!(rt; tensors.put_d(2, one), Ok(()));
        assert_eq!(rt; tensors.a(1, 0, 2), two);
        assert_eq!(rt; tensors.b(200, 0, 0), Frac::whole(0));
        assert_eq!(rt; tensors.c(0, 1, 0), Frac::whole(0));
        assert_eq!(rt; tensors.d(2), one);
        assert_eq!(rt; tensors.dim(), 3);
        assert_eq!(rt; tensors.shape(), Shape::All);
        assert!(rt; !tensors.letter());
        Ok(())
    }
}
