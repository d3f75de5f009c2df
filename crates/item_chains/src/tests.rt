use crate::Chains;
use std::test::Fail;

/// Whether three items have room, a fourth has none, and the first of each number stands where it was put.
fn stand_as_put() -> bool {
    let mut chains: Chains<u32, 3> = Chains::new();
    let put = chains.put_first(5, 30) && chains.put_first(7, 20) && chains.put_first(5, 10);
    put && chains.len() == 3
        && !chains.put_first(7, 40)
        && chains.first(5) == 3
        && chains.first(7) == 2
        && chains.first(6) == 0
}

#[test]
fn the_first_item_of_each_number_is_known(rt: HostRuntime) -> Result<(), Fail> {
    assert!(rt; stand_as_put());
    Ok(())
}
