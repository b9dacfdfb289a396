//! A line that is added to those before it.
ghost use Rattle.mk_script.specs.{Lines.{IsScopeOf, Reads}, Grammar.checked_behind};

use crate::faults::{LineFault, LineStop};
use crate::items::Item;
use crate::scope::Scope;

/// Adds the item that was found, if it may stand next.
#[inline(always)]
pub fn take(
    scope: &mut Scope,
    items: &mut Vec<Item>,
    found: Result<Item, LineFault>,
) -> Result<(), LineStop>
    ensures { IsScopeOf scope.old items.old.items → Reads items.old.items (checked_behind items.old.items found) result
        items.new.items scope.new }
{
    items.push(found?)?;
    let item = &items[items.len() - 1];
    scope.check(item)?;
    Ok(scope.add(item)?)
}
