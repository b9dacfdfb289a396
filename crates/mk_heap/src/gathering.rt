//! What threads return, gathered in their order.
ghost use Rattle.std.specs.Prelude.{◌≡◌, ◌∷◌, IfOk, IsOk, OnOk};

use mk_never::NoMemory;

/// What one thread returned before what others did, where memory suffices.
pub fn with_first<T: Drop>(
    first: Result<T, NoMemory>,
    others: Result<Vec<T>, NoMemory>,
) -> Result<Vec<T>, NoMemory>
    ensures first { OnOk result (IsOk first) }
    ensures others { OnOk result (IsOk others) }
    ensures items { IfOk result (λ all. IfOk first (λ x. IfOk others (λ xs. all.items ≡ x ∷ xs.items))) }
{
    let first = first?;
    let mut all = others?;
    all.insert(0, first)?;
    Ok(all)
}
