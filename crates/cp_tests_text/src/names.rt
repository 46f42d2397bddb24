use cp_term::{Name, NameError};
use std::test::Fail;

#[test]
fn names_are_short_and_utf8(rt: HostRuntime) -> Result<(), Fail> {
    let name = Name::of(rt.alloc(), b"foo")?;
    assert_eq!(rt; name.bytes(), b"foo".as_slice());
    assert_eq!(rt;
        Name::of(rt.alloc(), &[0xff]).err(),
        Some(NameError::NotUtf8)
    );
    assert!(rt; Name::of(rt.alloc(), &[97; 1024]).is_ok());
    assert_eq!(rt;
        Name::of(rt.alloc(), &[97; 1025]).err(),
        Some(NameError::TooLong)
    );
    Ok(())
}
