// The bytes of text and character constants, so that the lexer reads them back.
ghost use Rattle.std.specs.Prelude.{◌≡◌, ◌++◌, OnOk};
ghost use Rattle.sim_print.specs.Spelling.{coded, each, in_character, in_constant, in_text, is_plain};

use std::alloc::AllocError;

// A byte from 32 to 126, but no `!`.
fn is_plain(byte: u8) -> bool
    ensures { result ≡ is_plain byte }
{
    byte >= 32 && byte <= 126 && byte != b'!'
}

// `!n!`, the byte of that code.
fn push_coded(text: &mut Vec<u8>, byte: u8) -> Result<(), AllocError>
    ensures { OnOk result (text.new.items ≡ text.old.items ++ coded byte) }
{
    let mut buffer = itoa::Buffer::new();
    text.push(b'!')?;
    text.extend_from_slice(buffer.format(byte).as_bytes())?;
    text.push(b'!')?;
    Ok(())
}

// A byte that is no quote of its constant.
fn push_in_constant(text: &mut Vec<u8>, byte: u8) -> Result<(), AllocError>
    ensures { OnOk result (text.new.items ≡ text.old.items ++ in_constant byte) }
{
    if is_plain(byte) {
        text.push(byte)?;
        return Ok(());
    }
    push_coded(text, byte)
}

// A byte of a text constant.
fn push_in_text(text: &mut Vec<u8>, byte: u8) -> Result<(), AllocError>
    ensures { OnOk result (text.new.items ≡ text.old.items ++ in_text byte) }
{
    if byte == b'"' {
        return text.extend_from_slice(b"\"\"");
    }
    push_in_constant(text, byte)
}

/// The byte of a character constant.
pub(crate) fn push_in_character(text: &mut Vec<u8>, byte: u8) -> Result<(), AllocError>
    ensures { OnOk result (text.new.items ≡ text.old.items ++ in_character byte) }
{
    if byte == b'\'' {
        return push_coded(text, byte);
    }
    push_in_constant(text, byte)
}

/// The bytes of a text constant.
#[tactic(auto, using(crate::proofs::Bytes::byte_rules))]
pub(crate) fn push_all_in_text(text: &mut Vec<u8>, bytes: &[u8]) -> Result<(), AllocError>
    ensures { OnOk result (text.new.items ≡ text.old.items ++ each in_text bytes.now) }
{
    for byte in bytes {
        push_in_text(text, *byte)?;
    }
    Ok(())
}
