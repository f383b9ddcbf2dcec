//! The comment behind an `end`.
ghost use Rattle.std.specs.Prelude.{◌≡◌, ◌≤◌, ◌+◌, ◌<◌, ◌&&◌, drop, length, nat_eq, slice_index, MatchOption};
ghost use Rattle.sim_lexer.specs.Bytes.{is_line_feed};
ghost use Rattle.sim_lexer.specs.EndComments.{comment_from, end_comment, is_directive, stands_stop, stops};
ghost use Rattle.sim_lexer.specs.Scanning.{spot};

use crate::bytes::{byte_at, is_separator, is_word_byte, line_len, word_len};
use crate::words::is_stop_word;

/// The number of bytes behind an `end` that are its comment: those up to the first `;` or the first whole word `end`,
/// `else`, `when` or `otherwise`, or up to a directive. Empty lines, which begin with `%`, are passed over whole.
#[tactic(auto, unfolding(crate::specs::EndComments::end_comment))]
pub(crate) fn end_comment(rest: &[u8]) -> usize
    ensures len { result ≡ end_comment rest.now }
    ensures within { result ≤ length rest.now }
{
    let mut len = 0;
    let mut begins_line = false;
    let mut behind = rest;
    'comment: loop {
        match passed_len(begins_line, behind) {
            Some(size) => {
                len += size;
                begins_line = byte_at(behind, 0) == b'\n';
                behind = behind.split_at(size).1;
            }
            None => return len,
        }
    }
}

// How many bytes of the comment are passed over together: an empty line, a word or one byte. None where it stops.
fn passed_len(begins_line: bool, behind: &[u8]) -> Option<usize>
    ensures len { MatchOption result
        (comment_from (spot begins_line) behind.now ≡ 0)
        (λ size. (0 < size) × (size ≤ length behind.now)
        × (comment_from (spot begins_line) behind.now ≡ size + comment_from (spot (is_line_feed (slice_index behind.now 0))) (drop size behind.now))) }
{
    if behind.is_empty() {
        return None;
    }
    if stops(begins_line, behind) {
        return None;
    }
    if is_percent_line(begins_line, behind) {
        Some(line_len(behind))
    } else if is_word_byte(byte_at(behind, 0)) {
        Some(word_len(behind))
    } else {
        Some(1)
    }
}

// Whether the comment stops here.
#[tactic(auto, using(crate::proofs::EndCommentSteps::stops_here))]
fn stops(begins_line: bool, behind: &[u8]) -> bool
    ensures answer { result ≡ stops (spot begins_line) behind.now }
{
    (begins_line && is_directive(behind)) || stands_stop(behind)
}

// Whether a `;` stands here, or a word begins here that stops the comment.
fn stands_stop(behind: &[u8]) -> bool
    ensures answer { result ≡ stands_stop behind.now }
{
    byte_at(behind, 0) == b';' || is_stop_word(behind.split_at(word_len(behind)).0)
}

/// Whether a line begins here, and with `%`.
pub(crate) fn is_percent_line(begins_line: bool, rest: &[u8]) -> bool
    ensures answer { result ≡ (begins_line && nat_eq (slice_index rest.now 0) 37) }
{
    begins_line && byte_at(rest, 0) == b'%'
}

/// Whether a line that begins with `%` is a directive: it is an empty line where its second byte is a blank or the line
/// ends there.
pub(crate) fn is_directive(line: &[u8]) -> bool
    ensures answer { result ≡ is_directive line.now }
{
    match line {
        [b'%', second, ..] => !is_separator(*second),
        _ => false,
    }
}
