use lf_base::{TextId, Texts};
use std::test::Fail;

#[test]
fn numbers_texts(rt: HostRuntime) -> Result<(), Fail> {
    let mut texts = Texts::new(rt.alloc())?;
    assert_eq!(rt; texts.len(), 17);
    assert!(rt; !texts.is_empty());
    assert_eq!(rt; texts.intern(b"print")?, TextId::PRINT);
    let first = TextId { index: 17 };
    assert_eq!(rt; texts.intern(b"x")?, first);
    assert_eq!(rt; texts.intern(b"x")?, first);
    assert_eq!(rt; texts.len(), 18);
    assert_eq!(rt; texts.text(TextId { index: 16 }), b"is_closed".as_slice());
    assert_eq!(rt; texts.text(first), b"x".as_slice());
    assert_eq!(rt; texts.text(TextId { index: 18 }), b"".as_slice());
    Ok(())
}
