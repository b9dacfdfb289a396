//! The scripts of a program.
ghost use Rattle.std.specs.Prelude.{◌≡◌, ◌+◌, ◌≤◌, [], IfSome, IsNone, length};
ghost use Rattle.mk_script.specs.Scopes as scopes;
ghost use Rattle.mk_check.specs.Blocks.{script_of, before_next_script, IsScriptAt};

use mk_script::{Item, Name};

/// A script of a program: its name, the line of its first item, and its items.
#[derive(Drop)]
pub struct ScriptLines<'a> {
    pub name: &'a Name,
    pub line: u64,
    pub items: &'a [Item],
}

/// Whether a script begins at the item.
pub fn is_script(item: &Item) -> bool
    ensures { result ≡ scopes.is_script item.now }
{
    matches!(item, Item::Script { .. })
}

/// The items before the next script.
pub fn items_of_script(behind: &[Item]) -> &[Item]
    ensures { result.now ≡ before_next_script behind.now }
{
    for (place, item) in behind.iter().enumerate() {
        if is_script(item) {
            return &behind[..place];
        }
    }
    behind
}

/// Script `k`, from 0 on; none where there are not this many.
pub fn script_at(items: &[Item], k: u64) -> Option<ScriptLines<'_>>
    ensures some { IfSome result (λ script. IsScriptAt items.now k script.name.now script.line script.items.now) }
    ensures few { IsNone result → length (scopes.script_names items.now) ≤ k }
    ensures none { IsNone result → (script_of items.now k).items ≡ [] }
{
    let mut before = 0;
    for (index, item) in items.iter().enumerate() {
        if let Item::Script { name } = item {
            if before == k {
                return Some(ScriptLines {
                    name,
                    line: index as u64 + 2,
                    items: items_of_script(&items[index + 1..]),
                });
            }
            before += 1;
        }
    }
    None
}
