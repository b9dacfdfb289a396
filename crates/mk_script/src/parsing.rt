//! The reader.
ghost use Rattle.std.specs.Prelude.{◌≡◌, ◌≢◌, IfOk, IfErr, MatchResult, Ok, Err};
ghost use Rattle.mk_script.specs.{Grammar.{program_of, items_of_lines}, Lines.{IsScopeOf, Reads}};
ghost use Rattle.mk_script.specs.{Lines.line_of, Grammar.{first_line, later_lines, lines_of, words_of_line}};
ghost use Rattle.mk_script.specs.Grammar as spec;

use crate::faults::{LineStop, TEXT_LIMIT, TOO_LONG, TextKind, TextStop, Which};
use crate::scope::Scope;
use crate::splitting::{after_line, next_line};
use crate::{Item, Program, line};
use std::alloc::Global;

/// The program of a text, or the fault of the first line that has one. Of a line's faults the first counts, in the
/// order header, word, number or name, twice, limit, end. `NoMemory` says nothing of the text.
pub fn parse(alloc: Global, bytes: &[u8]) -> Result<Program, TextStop>
    ensures program { IfOk result (λ program. program_of bytes.now ≡ Ok program) }
    ensures fault { IfErr result (λ stop. stop ≢ TextStop.NoMemory → program_of bytes.now ≡ Err stop) }
{
    if bytes.len() > TEXT_LIMIT {
        return Err(TextStop::at_line(0, TOO_LONG));
    }
    let items = items(alloc, bytes)?;
    Ok(Program::from_items(items))
}

/// The items of a text, one a line.
fn items(alloc: Global, text: &[u8]) -> Result<Vec<Item>, TextStop>
    ensures items { IfOk result (λ items. items_of_lines (lines_of text.now) ≡ Ok items.items) }
    ensures fault { IfErr result (λ stop. stop ≢ TextStop.NoMemory → items_of_lines (lines_of text.now) ≡ Err stop) }
{
    if text.is_empty() {
        return Err(TextStop::Text {
            line: 1,
            kind: TextKind::Header,
        });
    }
    let mut scope = Scope::new(alloc);
    let mut items = Vec::new(alloc);
    let mut words = Vec::new(alloc);
    let mut rest = text;
    while !rest.is_empty() {
        let line = items.len() as u64 + 1;
        match read_line(alloc, &mut scope, &mut items, &mut words, rest) {
            Ok(later) => rest = later,
            Err(stop) => return Err(stop.at(line)),
        }
    }
    at_end(&scope, items)
}

/// Reads the first line of what is left, after those of the items and their scope, and gives what is left then. Its
/// words take the place of those of another.
fn read_line<'a>(
    alloc: Global,
    scope: &mut Scope,
    items: &mut Vec<Item>,
    words: &mut Vec<&'a [u8]>,
    left: &'a [u8],
) -> Result<&'a [u8], LineStop>
    ensures line { IsScopeOf scope.old items.old.items → Reads items.old.items
        (line_of items.old.items (words_of_line (first_line left.now))) result items.new.items scope.new }
    ensures later { IfOk result (λ later. later.now ≡ later_lines left.now) }
{
    let end = next_line(words, left)?;
    line::take_line(alloc, scope, items, words.as_slice())?;
    Ok(after_line(left, end))
}

/// The items, where the text may end after them.
fn at_end(scope: &Scope, items: Vec<Item>) -> Result<Vec<Item>, TextStop>
    ensures { IsScopeOf scope.now items.items
        → MatchResult result (λ kept. spec.at_end items.items ≡ Ok kept.items)
        (λ stop. spec.at_end items.items ≡ Err stop) }
{
    let line = items.len() as u64;
    if scope.has_open_block() {
        return Err(TextStop::Text {
            line,
            kind: TextKind::End,
        });
    }
    if !scope.has_script() {
        return Err(TextStop::Limit {
            line,
            which: Which::Scripts,
            found: 0,
        });
    }
    Ok(items)
}
