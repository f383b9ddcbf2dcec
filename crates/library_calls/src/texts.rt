//! Each call that makes a text, with ample memory.
use std::test::Fail;
use text_objects::Texts;

#[test]
fn texts_are_made(rt: HostRuntime) -> Result<(), Fail> {
    let mut texts = Texts::new(rt.alloc());
    let constant = texts.constant(b"ab")?;
    let image = texts.image(3)?;
    let blank = texts.blanks(1, 3)?;
    let copied = texts.copy(image, 3)?;
    let joined = texts.join(constant, blank, 3)?;
    assert_eq!(rt; texts.characters(joined), b"ab ".as_slice());
    assert_eq!(rt; texts.characters(copied), b"   ".as_slice());
    Ok(())
}
