//! Objects of a root and of nodes. A node has a number and a link to a node, and the root has pointers to nodes.
ghost use Rattle.std.specs.Prelude.{◌≡◌, ◌∷◌, [], IfOk};
ghost use Rattle.mk_jobs.specs.Jobs.{node_kinds, root_type};

use mk_core::GlobalTable;
use mk_never::{Kind, NoMemory, TypeTable};
use std::alloc::Global;

/// The type of a node, and of the root.
pub const NODE_TYPE: u64 = 0;

pub const ROOT_TYPE: u64 = 1;

/// The words of a node.
pub const NUMBER: u64 = 0;

pub const LINK: u64 = 1;

/// There was no room for a node, and the object is as it was.
#[derive(Clone, Copy, Debug, PartialEq, Eq)]
pub struct Full;

/// A pointer to a node.
pub fn to_node() -> Kind
    ensures { result ≡ Kind.To 0 0 }
{
    Kind::To {
        ty: NODE_TYPE,
        offset: 0,
    }
}

/// Both types, where the root has these words.
pub fn linked_types(alloc: Global, root: Vec<Kind>) -> Result<TypeTable, NoMemory>
    ensures { IfOk result (λ types. types ≡ node_kinds ∷ root.items ∷ []) }
{
    let mut types = TypeTable::new(alloc);
    types.add(vec![in alloc; Kind::Num, to_node()]?)?;
    types.add(root)?;
    Ok(types)
}

/// One global, which points to the root.
pub fn root_global(alloc: Global) -> Result<GlobalTable, NoMemory>
    ensures { IfOk result (λ globals. globals ≡ root_type ∷ []) }
{
    let mut globals = GlobalTable::new(alloc);
    globals.add(ROOT_TYPE)?;
    Ok(globals)
}
