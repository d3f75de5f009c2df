use crate::{
    Unreduced, Weight, Word, long_joined, long_once, long_twice, word_joined, word_once, word_twice,
};
use frac128::Frac;
use std::process::Abort;
use std::test::Fail;

const GREATEST: i128 = i128::MAX;

fn fraction(num: i128, den: i128) -> Result<Frac, Fail> {
    Ok(Frac::new(num, den).map_err(|_| "no fraction")?)
}

fn unreduced(num: i128, den: i128) -> Result<Unreduced, Fail> {
    Ok(Unreduced::of(fraction(num, den)?))
}

fn word(num: i128, den: i128) -> Result<Word, Fail> {
    Ok(Word::of(fraction(num, den)?).ok_or("no words")?)
}

fn weight(num: i128, den: i128) -> Result<Weight, Fail> {
    Ok(Weight::of(Some(fraction(num, den)?)))
}

/// The sum of two, beside the sum in lowest terms.
fn same_sum(rt: &impl Abort, x: Frac, y: Frac) -> Result<(), Fail> {
    let mut sum = Unreduced::of(x);
    sum.add(&Unreduced::of(y));
    assert_eq!(rt; sum.value(), x.add(y));
    Ok(())
}

#[test]
fn sums(rt: HostRuntime) -> Result<(), Fail> {
    let half = fraction(1, 2)?;
    same_sum(&rt, half, half)?;
    same_sum(&rt, half, fraction(1, 3)?)?;
    same_sum(&rt, fraction(5, 12)?, fraction(-7, 30)?)?;
    same_sum(&rt, fraction(GREATEST, 1)?, Frac::whole(1))?;
    same_sum(&rt, fraction(GREATEST, 1)?, Frac::whole(-1))?;
    same_sum(&rt, fraction(1, 1 << 126)?, fraction(1, 1 << 126)?)?;
    same_sum(&rt, fraction(3, 1 << 126)?, fraction(1, 5)?)?;
    same_sum(&rt, fraction(GREATEST, 2)?, fraction(-GREATEST, 2)?)?;
    Ok(())
}

/// A step out of range stays, also where the total is small, and a product out of range isn't mended by a factor 0.
#[test]
fn steps_out_of_range(rt: HostRuntime) -> Result<(), Fail> {
    let mut sum = Unreduced::of(fraction(GREATEST, 1)?);
    sum.add(&Unreduced::of(Frac::whole(1)));
    sum.add(&Unreduced::of(Frac::whole(-2)));
    assert_eq!(rt; sum.value(), None);
    let (zero, one) = (unreduced(0, 1)?, unreduced(1, 1)?);
    let term = long_twice(&weight(GREATEST, 1)?, 2, &zero, &one);
    assert_eq!(rt; term.value(), None);
    Ok(())
}

/// Whether a term by words is there, with this value.
fn is_term(term: Option<Unreduced>, value: Frac) -> bool {
    match term {
        Some(term) => term.value() == Some(value),
        None => false,
    }
}

#[test]
fn terms_of_words(rt: HostRuntime) -> Result<(), Fail> {
    let (x, y) = (word(5, 8)?, word(-7, 5)?);
    let half = fraction(1, 2)?;
    assert!(rt; is_term(word_once(3, half, &x), fraction(15, 16)?));
    assert!(rt; is_term(word_joined(&Weight::of(Some(half)), &x), fraction(5, 16)?));
    assert!(rt;
        is_term(
            word_twice(&Weight::of(Some(half)), 6, &x, &y),
            fraction(-21, 8)?
        )
    );
    assert!(rt; word_twice(&Weight::of(None), 6, &x, &y).is_none());
    Ok(())
}

#[test]
fn terms_of_any_numbers(rt: HostRuntime) -> Result<(), Fail> {
    let long = unreduced(1 << 70, 3)?;
    let mut sum = Unreduced::of(Frac::whole(0));
    sum.add(&long_once(3, fraction(1, 4)?, &unreduced(2, 9)?));
    sum.add(&long_joined(&weight(1, 1 << 70)?, &long));
    let (x, y) = (unreduced(5, 8)?, unreduced(-7, 5)?);
    sum.add(&long_twice(&weight(1, 2)?, 6, &x, &y));
    assert_eq!(rt; sum.value(), Some(fraction(-17, 8)?));
    sum.add(&long_joined(&Weight::of(None), &x));
    assert_eq!(rt; sum.value(), None);
    Ok(())
}

/// Whether a fraction is got back from the words that it is taken apart into, and from these to be added.
fn is_kept(v: Frac) -> bool {
    match Word::of(v) {
        Some(word) => word.value() == v && word.unreduced().value() == Some(v),
        None => false,
    }
}

#[test]
fn words(rt: HostRuntime) -> Result<(), Fail> {
    let odd = (1 << 63) - 1;
    let rows = [
        (0, 1),
        (-3, 8),
        (odd, 1 << 63),
        (5, (1 << 64) - 1),
        (7, 3 << 63),
    ];
    for (num, den) in rows {
        assert!(rt; is_kept(fraction(num, den)?));
    }
    for (num, den) in [(-odd - 1, 3), (7, 1 << 64), (GREATEST, GREATEST - 1)] {
        assert!(rt; Word::of(fraction(num, den)?).is_none());
    }
    Ok(())
}
