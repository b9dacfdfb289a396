//! Lines and words.
ghost use Rattle.std.specs.{Prelude.{◌≡◌, ◌==◌, ◌++◌, IfOk, OnOk}, List.slice_split};
ghost use Rattle.mk_script.specs.Grammar.{lines_of, words_of_line, texts_of};
ghost use Rattle.mk_script.specs.Grammar.{first_line, kept_word, later_lines, newline_or_end};

use std::alloc::{AllocError, Global};

/// The lines of a text, without their newlines.
pub fn split_lines(alloc: Global, text: &[u8]) -> Result<Vec<&[u8]>, AllocError>
    ensures { IfOk result (λ lines. texts_of lines.items ≡ lines_of text.now) }
{
    let mut lines = between_newlines(alloc, text)?;
    let Some(last) = lines.last() else {
        return Ok(lines);
    };
    if last.is_empty() {
        lines.pop();
    }
    Ok(lines)
}

fn between_newlines(alloc: Global, text: &[u8]) -> Result<Vec<&[u8]>, AllocError>
    ensures { IfOk result (λ pieces. texts_of pieces.items ≡ slice_split (λ byte. byte == 10) text.now) }
{
    text.split(|byte| *byte == b'\n').collect(alloc)
}

/// The words of a line.
pub fn split_words(alloc: Global, line: &[u8]) -> Result<Vec<&[u8]>, AllocError>
    ensures { IfOk result (λ words. texts_of words.items ≡ words_of_line line.now) }
{
    let mut words = Vec::new(alloc);
    replace_words(&mut words, line)?;
    Ok(words)
}

/// Puts the words of a line in the place of those of another.
pub fn replace_words<'a>(words: &mut Vec<&'a [u8]>, line: &'a [u8]) -> Result<(), AllocError>
    ensures { OnOk result (texts_of words.new.items ≡ words_of_line line.now) }
{
    words.clear();
    for word in line.split(|byte| *byte == b' ') {
        if !word.is_empty() {
            words.push(word)?;
        }
    }
    Ok(())
}

/// Puts the words of the text's first line in the place of those of another, and gives the line's length. Most bytes
/// are above both a newline and a space, so that one comparison passes them by.
#[inline(always)]
pub(crate) fn next_line<'a>(found: &mut Vec<&'a [u8]>, text: &'a [u8]) -> Result<usize, AllocError>
    ensures words { OnOk result (texts_of found.new.items ≡ words_of_line (first_line text.now)) }
    ensures end { IfOk result (λ end. end ≡ newline_or_end text.now) }
{
    found.clear();
    let mut start = 0;
    for (place, byte) in text.iter().enumerate() {
        if *byte > b' ' {
            continue;
        }
        if *byte == b'\n' {
            put_word(found, &text[start..place])?;
            return Ok(place);
        }
        if *byte != b' ' {
            continue;
        }
        put_word(found, &text[start..place])?;
        start = place + 1;
    }
    put_word(found, &text[start..])?;
    Ok(text.len())
}

/// Appends the word, unless it has no byte.
#[inline(always)]
fn put_word<'a>(words: &mut Vec<&'a [u8]>, word: &'a [u8]) -> Result<(), AllocError>
    ensures { OnOk result (texts_of words.new.items ≡ texts_of words.old.items ++ kept_word word.now) }
{
    if !word.is_empty() {
        words.push(word)?;
    }
    Ok(())
}

/// What stands after the line that ends here.
#[inline(always)]
pub(crate) fn after_line(text: &[u8], end: usize) -> &[u8]
    requires { end ≡ newline_or_end text.now }
    ensures { result.now ≡ later_lines text.now }
{
    if end < text.len() {
        &text[end + 1..]
    } else {
        &[]
    }
}
