use super::*;
use std::cmp::Ordering;
use std::test::Fail;

#[test]
fn texts_are_their_bytes(rt: HostRuntime) -> Result<(), Fail> {
    let alloc = rt.alloc();
    let text = Text::from_slice(alloc, b"acme")?;
    assert_eq!(rt; text.as_slice(), b"acme".as_slice());
    assert_eq!(rt; text.len(), 4);
    assert!(rt; !text.is_empty());
    assert!(rt; Text::new(alloc).is_empty());
    let copy = text.copy(alloc)?;
    assert!(rt; copy == text);
    let again = Text::from_vec(copy.into_vec());
    assert!(rt; again == text);
    Ok(())
}

#[test]
fn texts_are_ordered_by_their_bytes(rt: HostRuntime) -> Result<(), Fail> {
    let alloc = rt.alloc();
    for (a, b) in [
        ("", "a"),
        ("a", "aa"),
        ("aa", "b"),
        ("Z", "a"),
        ("z", "\u{e9}"),
    ] {
        let less = Text::from_slice(alloc, a.as_bytes())?;
        let more = Text::from_slice(alloc, b.as_bytes())?;
        assert_eq!(rt; less.cmp(&more), Ordering::Less, "{a} and {b}");
        assert!(rt; more > less, "{a} and {b}");
        assert!(rt; more != less, "{a} and {b}");
    }
    Ok(())
}

#[test]
fn lists_have_their_items(rt: HostRuntime) -> Result<(), Fail> {
    let alloc = rt.alloc();
    let mut names = Items::new(alloc);
    assert!(rt; names.is_empty());
    names.push(Text::from_slice(alloc, b"b")?)?;
    names.push(Text::from_slice(alloc, b"a")?)?;
    assert_eq!(rt; names.len(), 2);
    assert_eq!(rt; names.as_slice()[1].as_slice(), b"a".as_slice());
    let mut copy = names.copy(alloc)?;
    assert!(rt; copy == names);
    copy.push(Text::new(alloc))?;
    assert!(rt; copy != names);
    let again = Items::from_vec(names.into_vec());
    assert_eq!(rt; again.len(), 2);
    Ok(())
}

#[test]
fn slices_have_their_parts(rt: HostRuntime) -> Result<(), Fail> {
    let digits = [1, 2, 3];
    assert_eq!(rt; front(&digits, 2), [1, 2].as_slice());
    assert_eq!(rt; behind(&digits, 2), [3].as_slice());
    let copy = Items::from_slice(rt.alloc(), &[Text::from_slice(rt.alloc(), b"a")?])?;
    assert_eq!(rt; copy.len(), 1);
    Ok(())
}
