//! Pieces of a text.
ghost use Rattle.std.specs.{Prelude.{◌≡◌, ◌++◌, OnOk}, List.flat_map};

use mk_never::NoMemory;

/// Appends pieces, one after the other.
pub fn push_pieces(text: &mut Vec<u8>, pieces: &[&[u8]]) -> Result<(), NoMemory>
    ensures { OnOk result (text.new.items ≡ text.old.items ++ flat_map (λ piece. piece.now) pieces.now) }
{
    for piece in pieces {
        push(text, piece)?;
    }
    Ok(())
}

/// Appends a piece.
pub fn push(text: &mut Vec<u8>, piece: &[u8]) -> Result<(), NoMemory>
    ensures { OnOk result (text.new.items ≡ text.old.items ++ piece.now) }
{
    Ok(text.extend_from_slice(piece)?)
}
