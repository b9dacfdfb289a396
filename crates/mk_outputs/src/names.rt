//! The names of scripts, globals and registers, by their numbers.
ghost use Rattle.std.specs.Prelude.{◌≡◌, [], slice_index_or};
ghost use Rattle.mk_script.specs.Scopes.{names_of, script_names, global_names, pointer_names};
ghost use Rattle.mk_check.specs.Blocks.{script_of};

use mk_check::script_at;
use mk_script::{Item, Sort, declared_name};

/// The name of this number among those of a sort, or no byte where there are not this many.
fn name_among(sort: Sort, items: &[Item], number: u64) -> &[u8]
    ensures { result.now ≡ slice_index_or (names_of sort items.now) number [] }
{
    let mut left = number;
    for item in items {
        if let Some(name) = declared_name(sort, item) {
            if left == 0 {
                return name.as_bytes();
            }
            left -= 1;
        }
    }
    b""
}

/// The name of a script.
pub fn script_name(items: &[Item], script: u64) -> &[u8]
    ensures { result.now ≡ slice_index_or (script_names items.now) script [] }
{
    name_among(Sort::Script, items, script)
}

/// The name of a global.
pub fn global_name(items: &[Item], global: u64) -> &[u8]
    ensures { result.now ≡ slice_index_or (global_names items.now) global [] }
{
    name_among(Sort::Global, items, global)
}

/// The name of a script's pointer register.
pub fn register_name(items: &[Item], script: u64, register: u64) -> &[u8]
    ensures { result.now ≡ slice_index_or (pointer_names (script_of items.now script).items) register [] }
{
    match script_at(items, script) {
        Some(lines) => name_among(Sort::Pointer, lines.items, register),
        None => b"",
    }
}
