//! The texts of the generator's programs.
ghost use Rattle.std.specs.{Prelude.{◌≡◌, ◌++◌, ◌∷◌, IfOk, OnOk}, String.string_bytes};
ghost use Rattle.mk_outputs.specs.Generated.{declaration_lines, body_lines, text_of_lines, generated_text};
ghost use lib.Chars.{codes};

use crate::draws::Draws;
use mk_never::NoMemory;
use std::alloc::Global;

/// The lines before the first script.
fn declarations(alloc: Global, numbers: u64) -> Result<String, NoMemory>
    ensures { IfOk result (λ text. string_bytes text ≡ text_of_lines (declaration_lines numbers)) }
{
    Ok(format!(in alloc;
        "heap 256 256\n\
         type Node n p:Node\n\
         type Buf n*{numbers}\n\
         global g Node\n"
    )?)
}

/// Appends a script of this many turns, with a number for the node and a place in the buffer.
fn push_script(
    text: &mut String,
    name: &str,
    turns: u64,
    number: u64,
    place: u64,
) -> Result<(), NoMemory>
    ensures { OnOk result (string_bytes text.new
        ≡ string_bytes text.old ++ text_of_lines ((codes "script " ++ name.now) ∷ body_lines turns number place)) }
{
    Ok(write!(
        text,
        "script {name}\n\
         ptr p Node\n\
         ptr q Node\n\
         ptr z Node\n\
         ptr b Buf\n\
         num n\n\
         repeat {turns}\n\
         new p Node\n\
         const n {number}\n\
         setn p 0 n\n\
         storeg p g\n\
         loadg q g\n\
         getn n q 0\n\
         setp p 1 q\n\
         new b Buf\n\
         setn b {place} n\n\
         free b\n\
         clear b\n\
         setp p 1 z\n\
         free p\n\
         end\n"
    )?)
}

/// The text that the draws of START make, of COUNT / 48 turns a script.
pub fn generated_text(alloc: Global, start: u64, count: u64) -> Result<String, NoMemory>
    ensures { IfOk result (λ text. string_bytes text ≡ generated_text start count) }
{
    let mut draws = Draws::new(start);
    let numbers = 1 + draws.below(100);
    let mut text = declarations(alloc, numbers)?;
    for name in ["s0", "s1", "s2", "s3"] {
        let number = draws.below(1000);
        let place = draws.below(numbers);
        push_script(&mut text, name, count / 48, number, place)?;
    }
    Ok(text)
}
