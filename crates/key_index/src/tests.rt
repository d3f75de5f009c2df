use crate::{KeyIndex, genus_code};
use airy_index::Key;
use std::alloc::{AllocError, Global};
use std::test::Fail;

/// Whether each key is found at its rank.
fn each_is_found(index: &KeyIndex) -> bool {
    let mut ranks = 0..u32::MAX;
    for key in index.keys() {
        if index.find(index.key_code(key)) != ranks.next() {
            return false;
        }
    }
    true
}

/// Keys of genera from 1 to 5 with one to six indices, 3,000 in all.
fn many_keys(alloc: Global) -> Result<Vec<Key>, AllocError> {
    let mut keys = Vec::new(alloc);
    for genus in 1..6 {
        for places in 1..7 {
            for least in 0..100 {
                let indices = [least, 100, 7, 200, 7, 255];
                if let Ok(key) = Key::of(genus, &indices[..places]) {
                    keys.push(key)?;
                }
            }
        }
    }
    Ok(keys)
}

#[test]
fn three_thousand_keys_are_found(rt: HostRuntime) -> Result<(), Fail> {
    let keys = many_keys(rt.alloc())?;
    assert_eq!(rt; keys.len(), 3000);
    let index = KeyIndex::of(rt.alloc(), keys)?;
    assert!(rt; index.is_exact());
    assert!(rt; each_is_found(&index));
    Ok(())
}

#[test]
fn a_few_keys_are_found(rt: HostRuntime) -> Result<(), Fail> {
    let mut keys = Vec::new(rt.alloc());
    keys.push(Key::of(0, &[0, 0, 0]).map_err(|_| "first")?)?;
    keys.push(Key::of(1, &[1]).map_err(|_| "second")?)?;
    keys.push(Key::of(0, &[0, 0, 0, 1]).map_err(|_| "third")?)?;
    keys.push(Key::of(255, &[255; 26]).map_err(|_| "last")?)?;
    assert_eq!(rt; keys.len(), 4);
    let index = KeyIndex::of(rt.alloc(), keys)?;
    assert!(rt; index.is_exact());
    assert!(rt; each_is_found(&index));
    Ok(())
}

#[test]
fn of_a_key_that_comes_twice_nothing_is_found(rt: HostRuntime) -> Result<(), Fail> {
    let mut keys = Vec::new(rt.alloc());
    keys.push(Key::of(1, &[1]).map_err(|_| "first")?)?;
    keys.push(Key::of(0, &[0, 0, 0]).map_err(|_| "second")?)?;
    keys.push(Key::of(1, &[1]).map_err(|_| "third")?)?;
    assert_eq!(rt; keys.len(), 3);
    let index = KeyIndex::of(rt.alloc(), keys)?;
    assert!(rt; !index.is_exact());
    for key in index.keys() {
        assert_eq!(rt; index.find(index.key_code(key)), None);
    }
    Ok(())
}

#[test]
fn the_codes_of_a_key_add_up(rt: HostRuntime) -> Result<(), Fail> {
    let mut keys = Vec::new(rt.alloc());
    keys.push(Key::of(2, &[71, 0]).map_err(|_| "key")?)?;
    assert_eq!(rt; keys.len(), 1);
    let index = KeyIndex::of(rt.alloc(), keys)?;
    assert_eq!(rt; genus_code(2), 11_133_510_565_745_310);
    assert_eq!(rt; index.index_code(0), 178_136_169_051_924_959);
    assert_eq!(rt; index.index_code(71), 172_276_491_532_149_334);
    assert_eq!(rt; index.list_code(&[0, 71]), 350_412_660_584_074_293);
    assert_eq!(rt; index.find(361_546_171_149_819_603), Some(0));
    Ok(())
}
