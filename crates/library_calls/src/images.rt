//! Images over an input that gives one byte a call, and over an output, with ample memory.
ghost use Rattle.std.specs.Prelude.{◌-◌, ◌≤◌, None, length};

use basic_io::{InImage, OutImage};
use sim_ports::{Failed, MemSink, Source};
use std::test::Fail;
use text_objects::Texts;

/// A source that gives one byte a call, and tells none of what is left.
#[derive(Drop)]
struct Dripping<'a> {
    bytes: &'a [u8],
    place: usize,
}

impl Source for Dripping<'_> {
    ghost left = { λ _. None };

    ghost can_give = { λ dripping. length dripping.bytes.now - dripping.place };

    ghost faults = { λ _. 0 };

    ghost is_sound = { λ _. Unit {0} };

    fn read(&mut self, into: &mut [u8]) -> Result<usize, Failed> {
        if into.is_empty() || self.place >= self.bytes.len() {
            return Ok(0);
        }
        into[0] = self.bytes[self.place];
        self.place += 1;
        Ok(1)
    }
}

// Each call reads as far as it must, and no byte more.
#[test]
fn nothing_is_read_ahead(rt: HostRuntime) -> Result<(), Fail> {
    let mut texts = Texts::new(rt.alloc());
    let mut image = InImage::new(rt.alloc(), &mut texts, 3)?;
    let mut input = Dripping {
        bytes: b"ab\n 12\n\n-5",
        place: 0,
    };
    let line = image.inimage(&mut texts, &mut input);
    assert_eq!(rt; (line, input.place), (Ok(()), 3));
    image.set_pos(4);
    let item = image.inint(&mut texts, &mut input);
    assert_eq!(rt; (item, input.place), (Ok(12), 7));
    let text = image.intext(&mut texts, &mut input, 3, 3)?;
    assert_eq!(rt;
        (texts.characters(text), input.place),
        (b"   ".as_slice(), 8)
    );
    let item = image.inint(&mut texts, &mut input);
    assert_eq!(rt; (item, input.place), (Ok(-5), 10));
    Ok(())
}

#[test]
fn a_line_is_written(rt: HostRuntime) -> Result<(), Fail> {
    let mut texts = Texts::new(rt.alloc());
    let mut image = OutImage::new(&mut texts, 4)?;
    let mut out = MemSink::new(rt.alloc(), &[], 9)?;
    assert_eq!(rt; image.outint(&mut texts, &mut out, 7, 2), Ok(()));
    assert_eq!(rt; image.outimage(&mut texts, &mut out), Ok(()));
    assert_eq!(rt; out.bytes(), b" 7\n".as_slice());
    Ok(())
}
