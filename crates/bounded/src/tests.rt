use super::*;
use std::test::Fail;

fn two_four_six() -> Result<Bounded<u8, 4>, Full> {
    let mut list = Bounded::new(0);
    list.push(2)?;
    list.push(4)?;
    list.push(6)?;
    Ok(list)
}

#[test]
fn ends(rt: HostRuntime) -> Result<(), Fail> {
    let mut list = two_four_six()?;
    assert_eq!(rt; [list.push(8), list.push(9)], [Ok(()), Err(Full)]);
    assert_eq!(rt; list.as_slice(), &[2, 4, 6, 8][..]);
    assert_eq!(rt; [list.pop(), list.last()], [Some(8), Some(6)]);
    list.clear();
    assert_eq!(rt; list.pop(), None);
    Ok(())
}

#[test]
fn places(rt: HostRuntime) -> Result<(), Fail> {
    let mut list = two_four_six()?;
    let inserted = [list.insert(4, 9), list.insert(0, 1), list.insert(4, 9)];
    assert_eq!(rt;
        inserted,
        [Err(InsertError::PastEnd), Ok(()), Err(InsertError::Full)]
    );
    assert_eq!(rt;
        [list.remove(3), list.remove(0), list.remove(2)],
        [Some(6), Some(1), None]
    );
    assert_eq!(rt; [list.set(2, 7), list.set(1, 5)], [false, true]);
    assert_eq!(rt; [list.get(1), list.get(2)], [Some(5), None]);
    Ok(())
}

#[test]
fn drops_none_some_and_all(rt: HostRuntime) -> Result<(), Fail> {
    let mut list = two_four_six()?;
    list.retain(|x| *x >= 2);
    assert_eq!(rt; list.as_slice(), &[2, 4, 6][..]);
    list.retain(|x| *x >= 5);
    assert_eq!(rt; list.as_slice(), &[6][..]);
    list.retain(|x| *x >= 7);
    assert_eq!(rt; list.len(), 0);
    Ok(())
}

#[test]
fn free_places_are_not_compared(rt: HostRuntime) -> Result<(), Fail> {
    let mut list = two_four_six()?;
    list.push(8)?;
    assert!(rt; list != two_four_six()?);
    list.pop();
    assert!(rt; list == two_four_six()?);
    Ok(())
}
