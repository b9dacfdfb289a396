//! The lines that report what the last cycle kept, and why.
ghost use Rattle.std.specs.{Prelude.{◌≡◌, ◌++◌, [], ◌∷◌, List, OnOk}, Fmt.decimal};
ghost use Rattle.mk_script.specs.Canonical.{line_text};
ghost use Rattle.mk_outputs.specs.RunOutputs.{root_words, links_text, entry_text, kept_text};
ghost use lib.Chars.{codes};

use crate::names::{global_name, register_name, script_name};
use crate::pieces::{push, push_pieces};
use itoa::Buffer;
use mk_never::NoMemory;
use mk_run::lower::chains::{Kept, Root};
use mk_script::{Item, Program};

/// Appends the lines of what was kept, in its order.
pub fn push_kept(text: &mut Vec<u8>, program: &Program, kept: &[Kept]) -> Result<(), NoMemory>
    ensures { OnOk result (text.new.items ≡ text.old.items ++ kept_text program.now kept.now) }
{
    let items = program.items();
    for entry in kept {
        push_entry(text, items, entry)?;
    }
    Ok(())
}

/// Appends the lines of an entry.
fn push_entry(text: &mut Vec<u8>, items: &[Item], entry: &Kept) -> Result<(), NoMemory>
    ensures { OnOk result (text.new.items ≡ text.old.items ++ entry_text items.now entry.now) }
{
    push_head(text, entry.address, entry.words)?;
    push_root(text, items, entry.root)?;
    push_links(text, &entry.links)
}

fn push_head(text: &mut Vec<u8>, address: u64, words: u64) -> Result<(), NoMemory>
    ensures { OnOk result (text.new.items
        ≡ text.old.items ++ line_text (codes "kept" ∷ decimal address ∷ decimal words ∷ [])) }
{
    let mut at = Buffer::new();
    let mut size = Buffer::new();
    push_pieces(
        text,
        &[
            b"kept ",
            at.format(address).as_bytes(),
            b" ",
            size.format(words).as_bytes(),
            b"\n",
        ],
    )
}

/// Appends the line of the root from which an entry is reached.
fn push_root(text: &mut Vec<u8>, items: &[Item], root: Option<Root>) -> Result<(), NoMemory>
    ensures { OnOk result (text.new.items ≡ text.old.items ++ line_text (root_words items.now root)) }
{
    match root {
        None => push(text, b"floating\n"),
        Some(Root::Global(global)) => push_pieces(
            text,
            &[b"global ", global_name(items, global), b"\n"],
        ),
        Some(Root::Register { caller, register }) => push_pieces(
            text,
            &[
                b"register ",
                script_name(items, caller),
                b" ",
                register_name(items, caller, register),
                b"\n",
            ],
        ),
    }
}

/// Appends the lines of the words through which an entry is reached.
fn push_links(text: &mut Vec<u8>, links: &[u64]) -> Result<(), NoMemory>
    ensures { OnOk result (text.new.items ≡ text.old.items ++ links_text links.now) }
{
    for link in links {
        push_link(text, *link)?;
    }
    Ok(())
}

/// Most of the text is such lines. The digits are on the stack, so that a line takes no memory of its own.
fn push_link(text: &mut Vec<u8>, link: u64) -> Result<(), NoMemory>
    ensures { OnOk result (text.new.items ≡ text.old.items ++ line_text (codes "word" ∷ decimal link ∷ [])) }
{
    let mut at = Buffer::new();
    push_pieces(text, &[b"word ", at.format(link).as_bytes(), b"\n"])
}
