//! The heaps on which the tests run.
ghost use Rattle.std.specs.Prelude.{◌≡◌, IfOk};
ghost use Rattle.mk_heap_tests.specs.HeldObjects.{one_page};

use mk_core::{Config, GlobalTable};
use mk_never::{Kind, NoMemory, TypeTable};
use std::alloc::Global;

/// A heap of one page, with one type and no global.
pub(crate) fn one_page(
    alloc: Global,
    callers: u64,
    markers: u64,
    kinds: &[Kind],
) -> Result<Config, NoMemory>
    ensures { IfOk result (λ config. config ≡ one_page callers markers kinds.now) }
{
    let mut types = TypeTable::new(alloc);
    types.add(kinds.to_vec(alloc)?)?;
    Ok(Config {
        pages: 1,
        resident: 1,
        callers,
        markers,
        types,
        globals: GlobalTable::new(alloc),
    })
}
