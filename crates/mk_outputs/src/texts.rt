//! The texts of scripts.
ghost use Rattle.std.specs.{Prelude.{◌≡◌, IfOk}, List.flat_map};

use mk_check::Text;
use mk_never::NoMemory;
use std::alloc::Global;

/// The texts, one after the other.
pub fn joined(alloc: Global, texts: &[Text]) -> Result<Vec<u8>, NoMemory>
    ensures { IfOk result (λ bytes. bytes.items ≡ flat_map (λ text. text.bytes.items) texts.now) }
{
    let mut bytes = Vec::new(alloc);
    for text in texts {
        bytes.extend_from_slice(&text.bytes)?;
    }
    Ok(bytes)
}
