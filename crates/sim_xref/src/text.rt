//! Cross references as text.
ghost use Rattle.std.specs.Prelude.{◌≡◌, ◌++◌, IfOk, OnOk};
ghost use Rattle.std.specs.List.{flat_map};
ghost use Rattle.sim_scope.specs.Source.{source_of};
ghost use Rattle.sim_xref.specs.Text.{after_blank, is_last, lines_of, references_text, row_text, token_line, unless_last};

use crate::rows::{XrefRow, xref};
use itoa::Buffer;
use sim_base::{Memory, TokenNo};
use sim_scope::Bound;
use std::alloc::{AllocError, Global};

/// A line for each declaration of a program: its identifier in lower case, the line where it is declared, a colon, and each line in which
/// it is used, once.
#[tactic(auto, unfolding(crate::specs::Text::references_text))]
pub fn cross_references(alloc: Global, bound: &Bound) -> Result<Vec<u8>, Memory>
    ensures { IfOk result (λ text. text.items ≡ references_text (source_of bound.now)) }
{
    let rows = xref(alloc, bound)?;
    let mut text = Vec::new(alloc);
    put_rows(&mut text, bound, &rows)?;
    Ok(text)
}

// The lines of declarations.
fn put_rows(text: &mut Vec<u8>, bound: &Bound, rows: &[XrefRow]) -> Result<(), AllocError>
    ensures { OnOk result (text.new.items ≡ text.old.items ++ flat_map (row_text (source_of bound.now)) rows.now) }
{
    for row in rows {
        put_row(text, bound, row)?;
    }
    Ok(())
}

// The line of a declaration.
#[tactic(auto, unfolding(crate::specs::Text::row_text))]
fn put_row(text: &mut Vec<u8>, bound: &Bound, row: &XrefRow) -> Result<(), AllocError>
    ensures { OnOk result (text.new.items ≡ text.old.items ++ row_text (source_of bound.now) row.now) }
{
    let mut buffer = Buffer::new();
    text.extend_from_slice(&row.name)?;
    text.push(b' ')?;
    text.extend_from_slice(buffer.format(line_of(bound, row.token)).as_bytes())?;
    text.push(b':')?;
    put_lines(text, bound, &row.uses)?;
    text.push(b'\n')?;
    Ok(())
}

// The lines of uses. The tokens of one line follow one another.
#[tactic(auto, using(crate::proofs::Lines::adding))]
fn put_lines(text: &mut Vec<u8>, bound: &Bound, uses: &[TokenNo]) -> Result<(), AllocError>
    ensures { OnOk result (text.new.items ≡ text.old.items ++ flat_map after_blank (lines_of (source_of bound.now) uses.now)) }
{
    let mut last = None;
    for token in uses {
        let line = line_of(bound, *token);
        put_unless_last(text, last, line)?;
        last = Some(line);
    }
    Ok(())
}

// A line behind a blank, unless it was written last.
#[tactic(auto, using(crate::proofs::Lines::one_line))]
fn put_unless_last(text: &mut Vec<u8>, last: Option<u32>, line: u32) -> Result<(), AllocError>
    ensures { OnOk result (text.new.items ≡ text.old.items ++ unless_last last line) }
{
    if is_last(last, line) {
        return Ok(());
    }
    put_line(text, line)
}

// A line behind a blank.
fn put_line(text: &mut Vec<u8>, line: u32) -> Result<(), AllocError>
    ensures { OnOk result (text.new.items ≡ text.old.items ++ after_blank line) }
{
    let mut buffer = Buffer::new();
    text.push(b' ')?;
    text.extend_from_slice(buffer.format(line).as_bytes())?;
    Ok(())
}

// Whether a line is the one that was written last.
fn is_last(last: Option<u32>, line: u32) -> bool
    ensures { result ≡ is_last last line }
{
    match last {
        Some(last) => last == line,
        None => false,
    }
}

// The line of a token.
#[tactic(auto, unfolding(crate::specs::Text::token_line, sim_scope::specs::Source::line_at, sim_scope::specs::Source::source_of))]
fn line_of(bound: &Bound, token: TokenNo) -> u32
    ensures { result ≡ token_line (source_of bound.now) token }
{
    match bound.program.lines.get(token.0 as usize) {
        Some(line) => line.0,
        None => 0,
    }
}
