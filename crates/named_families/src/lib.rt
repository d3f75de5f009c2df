//! The tensors of the named structures.
#![tactic(auto)]

mod families;
mod filling;
mod laws;
mod numbers;
mod petersson;

pub use airy_math::Family;
pub use families::{bgw, bgw_cut, top_of, wk, wk_cut};
pub use laws::{bgw_closes, wk_closes, wp_closes};
pub use petersson::{MakeErr, wp, wp_cut};

#[cfg(test)]
mod tests {
    use super::*;
    use frac128::Frac;
    use sparse_tensor::Tensors;
    use std::test::Fail;

    fn is(value: Frac, num: i128, den: i128) -> bool {
        value.parts() == (num, den)
    }

    fn are_wk_3(t: &Tensors) -> bool {
        is(t.a(0, 0, 0), 1, 1)
            && is(t.b(0, 2, 1), 5, 1)
            && is(t.b(1, 0, 0), 1, 1)
            && is(t.c(2, 0, 0), 1, 1)
            && is(t.d(1), 1, 8)
            && t.row_b(2, 2).len() == 0
    }

    #[test]
    fn wk_with_three_indices(rt: HostRuntime) -> Result<(), Fail> {
        let tensors = wk_cut(rt.alloc(), 3)?;
        assert!(rt; are_wk_3(&tensors));
        Ok(())
    }

    #[test]
    fn the_greatest_dim(rt: HostRuntime) -> Result<(), Fail> {
        let tensors = wk_cut(rt.alloc(), 72)?;
        assert!(rt; is(tensors.b(71, 1, 71), 3, 1) && tensors.row_c(71).len() == 35);
        Ok(())
    }

    #[test]
    fn the_least_dim(rt: HostRuntime) -> Result<(), Fail> {
        let tensors = wk_cut(rt.alloc(), 1)?;
        assert!(rt; is(tensors.a(0, 0, 0), 1, 1) && is(tensors.d(0), 0, 1));
        Ok(())
    }

    fn are_bgw_3(t: &Tensors) -> bool {
        is(t.a(0, 0, 0), 0, 1)
            && is(t.b(0, 2, 2), 5, 1)
            && is(t.b(1, 0, 1), 1, 1)
            && is(t.c(2, 1, 0), 1, 1)
            && is(t.d(0), 1, 8)
    }

    #[test]
    fn bgw_with_three_indices(rt: HostRuntime) -> Result<(), Fail> {
        let tensors = bgw_cut(rt.alloc(), 3)?;
        assert!(rt; are_bgw_3(&tensors));
        Ok(())
    }

    fn are_wp_3(t: &Tensors) -> bool {
        is(t.a(0, 0, 0), 1, 1)
            && is(t.b(0, 0, 1), 14, 45)
            && is(t.b(0, 1, 1), 2, 1)
            && is(t.b(0, 0, 2), 0, 1)
            && is(t.c(0, 0, 0), 14, 45)
            && is(t.d(0), 1, 12)
            && is(t.d(1), 1, 8)
            && t.letter()
    }

    #[test]
    fn wp_with_three_indices(rt: HostRuntime) -> Result<(), Fail> {
        let tensors = wp_cut(rt.alloc(), 3, 2)?;
        assert!(rt; are_wp_3(&tensors));
        Ok(())
    }

    fn have_numbers_of_wp(t: &Tensors) -> bool {
        is(t.c(2, 0, 0), 1, 1)
            && is(t.c(1, 0, 0), 2, 3)
            && is(t.c(0, 0, 0), 14, 45)
            && is(t.c(0, 0, 1), 124, 945)
            && is(t.c(0, 1, 1), 254, 4725)
    }

    #[test]
    fn the_numbers_of_wp(rt: HostRuntime) -> Result<(), Fail> {
        let tensors = wp_cut(rt.alloc(), 3, 4)?;
        assert!(rt; have_numbers_of_wp(&tensors));
        Ok(())
    }

    fn are_wp_1(t: &Tensors) -> bool {
        is(t.b(0, 0, 0), 2, 3) && is(t.d(0), 1, 12) && is(t.d(1), 0, 1)
    }

    #[test]
    fn wp_with_one_index(rt: HostRuntime) -> Result<(), Fail> {
        let tensors = wp_cut(rt.alloc(), 1, 1)?;
        assert!(rt; are_wp_1(&tensors));
        Ok(())
    }

    #[test]
    fn the_twentieth_number_of_wp_is_over(rt: HostRuntime) {
        let over = Some(MakeErr::Over { k: 20 });
        assert!(rt; wp_cut(rt.alloc(), 19, 19).is_ok());
        assert!(rt; wp_cut(rt.alloc(), 21, 21).err() == over && wp(rt.alloc(), 14).err() == over);
    }

    fn has_dim(tensors: Tensors, dim: u8) -> bool {
        tensors.dim() == dim
    }

    #[test]
    fn the_dims_up_to_a_bound(rt: HostRuntime) -> Result<(), Fail> {
        assert!(rt; has_dim(wk(rt.alloc(), 3)?, 5));
        assert!(rt; has_dim(bgw(rt.alloc(), 3)?, 2));
        assert!(rt; has_dim(wp(rt.alloc(), 13)?, 20));
        Ok(())
    }

    #[test]
    fn tops(rt: HostRuntime) {
        assert!(rt; top_of(Family::Wk, 1) == 1 && top_of(Family::Wp, 3) == 4);
        assert!(rt; top_of(Family::Wk, 24) == 35 && top_of(Family::Bgw, 24) == 11);
    }
}
