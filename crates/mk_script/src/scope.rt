//! What the lines before a line say.
ghost use Rattle.std.specs.Prelude.{◌≡◌, ◌<◌, ◌+◌, ◌^◌, List, [], ◌∷◌, ◌++◌, length, reverse, not, false, OnOk};
ghost use Rattle.std.specs.Option.{option_or};
ghost use Rattle.mk_script.specs.{Lines.is_among, Scopes.{open_blocks, open_behind, behind_else, this_script}};
ghost use Rattle.mk_script.specs.{Grammar.kept_if, Scopes.type_names, Lines.{IsScopeOf, BeginsScript, has_lines}};
ghost use Rattle.mk_script.specs.Lines as spec;

use crate::faults::{LineFault, TextKind, Which};
use crate::items::Item;
use crate::keywords::Keyword;
use crate::limits::{at_most, heap_limit};
use crate::name_set::NameSet;
use crate::names::Name;
use std::alloc::{AllocError, Global};

/// An open block.
#[derive(Clone, Copy)]
pub enum OpenBlock {
    InRepeat,
    /// An `if` in its first branch.
    InFirst,
    /// An `if` after its `else`.
    InSecond,
}

/// What the lines so far say. The registers and the open blocks are those of the last script.
#[derive(Drop)]
pub struct Scope {
    alloc: Global,
    has_header: bool,
    has_script: bool,
    has_instruction: bool,
    types: NameSet,
    globals: NameSet,
    scripts: NameSet,
    pointers: NameSet,
    numbers: NameSet,
    /// The innermost is the last.
    blocks: Vec<OpenBlock>,
}

impl Scope {
    /// What is known before the first line.
    pub fn new(alloc: Global) -> Scope
        ensures { IsScopeOf result [] }
    {
        Scope {
            alloc,
            has_header: false,
            has_script: false,
            has_instruction: false,
            types: NameSet::new(alloc),
            globals: NameSet::new(alloc),
            scripts: NameSet::new(alloc),
            pointers: NameSet::new(alloc),
            numbers: NameSet::new(alloc),
            blocks: Vec::new(alloc),
        }
    }

    /// Whether line 1 is among the lines so far.
    pub fn has_header(&self) -> bool
        ensures { (before : List Item) → IsScopeOf self.now before → result ≡ has_lines before }
    {
        self.has_header
    }

    /// Whether a script has begun.
    pub fn has_script(&self) -> bool
        ensures { (before : List Item) → IsScopeOf self.now before → result ≡ spec.has_script before }
    {
        self.has_script
    }

    /// Whether a block is open.
    pub fn has_open_block(&self) -> bool
        ensures { (before : List Item) → IsScopeOf self.now before → result ≡ not (spec.has_none (open_blocks before)) }
    {
        !self.blocks.is_empty()
    }

    /// Whether a line of the form may stand next.
    pub fn is_placed(&self, keyword: Keyword) -> bool
        ensures { (before : List Item) → IsScopeOf self.now before → result ≡ spec.is_placed before keyword }
    {
        match keyword {
            Keyword::Heap => false,
            Keyword::TypeLine | Keyword::Global => !self.has_script,
            Keyword::Script => true,
            Keyword::Ptr | Keyword::Num => self.has_script && !self.has_instruction,
            _ => self.has_script,
        }
    }

    /// Whether the type is declared.
    pub fn has_type(&self, name: &Name) -> bool
        ensures { (before : List Item) → IsScopeOf self.now before → result ≡ is_among name.now (type_names before) }
    {
        self.types.contains(name)
    }

    /// Whether the item declares a name a second time.
    fn is_twice(&self, item: &Item) -> bool
        ensures { (before : List Item) → IsScopeOf self.now before → result ≡ spec.is_twice before item.now }
    {
        match item {
            Item::TypeLine { name, .. } => self.types.contains(name),
            Item::Global { name, .. } => self.globals.contains(name),
            Item::Script { name } => self.scripts.contains(name),
            Item::Ptr { name, .. } | Item::Num { name } => self.has_register(name),
            _ => false,
        }
    }

    fn has_register(&self, name: &Name) -> bool
        ensures { (before : List Item) → IsScopeOf self.now before
            → result ≡ spec.is_among name.now (spec.register_names (this_script before)) }
    {
        self.pointers.contains(name) || self.numbers.contains(name)
    }

    /// The limit that is passed by a type of this many words.
    pub fn type_limit_fault(&self, words: u64) -> Option<LineFault>
        ensures { (before : List Item) → IsScopeOf self.now before
            → result ≡ option_or (spec.at_most (length (type_names before) + 1) 64 Which.Types)
            (spec.at_most words 4096 Which.Words) }
    {
        type_limits(one_more(self.types.len()), words)
    }

    /// The limit that the item passes.
    fn limit_fault(&self, item: &Item) -> Option<LineFault>
        ensures { (before : List Item) → IsScopeOf self.now before → result ≡ spec.limit_fault before item.now }
    {
        match item {
            Item::Heap { pages, resident } => heap_limit(*pages, *resident),
            Item::TypeLine { words, .. } => self.type_limit_fault(words.as_slice().len() as u64),
            Item::Global { .. } => at_most(one_more(self.globals.len()), 64, Which::Globals),
            Item::Script { .. } => at_most(one_more(self.scripts.len()), 16, Which::Scripts),
            Item::Ptr { .. } => at_most(one_more(self.pointers.len()), 8, Which::Pointers),
            Item::Num { .. } => at_most(one_more(self.numbers.len()), 8, Which::Numbers),
            Item::Repeat { .. } | Item::If { .. } => at_most(
                one_more(self.blocks.len()),
                32,
                Which::Depth,
            ),
            _ => None,
        }
    }

    /// Whether the item ends no block but one that is open.
    fn ends_rightly(&self, item: &Item) -> bool
        ensures { (before : List Item) → IsScopeOf self.now before
            → result ≡ spec.ends_rightly (open_blocks before) item.now }
    {
        match item {
            Item::Script { .. } => self.blocks.is_empty(),
            Item::Else => matches!(self.blocks.last(), Some(OpenBlock::InFirst)),
            Item::End => !self.blocks.is_empty(),
            _ => true,
        }
    }

    /// Whether the item may stand next, or the first of its faults.
    pub fn check(&self, item: &Item) -> Result<(), LineFault>
        ensures { (before : List Item) → IsScopeOf self.now before
            → kept_if result item.now ≡ spec.checked_item before item.now }
    {
        if self.is_twice(item) {
            return Err(LineFault::Text(TextKind::Twice));
        }
        if let Some(fault) = self.limit_fault(item) {
            return Err(fault);
        }
        if !self.ends_rightly(item) {
            return Err(LineFault::Text(TextKind::End));
        }
        Ok(())
    }

    /// Adds a line that may stand next.
    pub fn add(&mut self, item: &Item) -> Result<(), AllocError>
        ensures { (before : List Item) → IsScopeOf self.old before → spec.is_twice before item.now ≡ false
            → OnOk result (IsScopeOf self.new (before ++ item.now ∷ [])) }
    {
        self.has_header = true;
        follow_blocks(&mut self.blocks, item)?;
        match item {
            Item::Heap { .. } => Ok(()),
            Item::TypeLine { name, .. } => self.types.insert(self.alloc, name),
            Item::Global { name, .. } => self.globals.insert(self.alloc, name),
            Item::Script { name } => self.begin_script(name),
            Item::Ptr { name, .. } => self.pointers.insert(self.alloc, name),
            Item::Num { name } => self.numbers.insert(self.alloc, name),
            _ => {
                self.has_instruction = true;
                Ok(())
            }
        }
    }

    fn begin_script(&mut self, name: &Name) -> Result<(), AllocError>
        ensures { is_among name.now self.old.scripts ≡ false → OnOk result (BeginsScript self.old name.now self.new) }
    {
        self.has_script = true;
        self.has_instruction = false;
        self.pointers = NameSet::new(self.alloc);
        self.numbers = NameSet::new(self.alloc);
        self.scripts.insert(self.alloc, name)
    }
}

/// Opens, turns or ends a block, as the item says.
fn follow_blocks(blocks: &mut Vec<OpenBlock>, item: &Item) -> Result<(), AllocError>
    ensures { OnOk result (reverse blocks.new.items ≡ open_behind (reverse blocks.old.items) item.now) }
{
    match item {
        Item::Script { .. } => blocks.clear(),
        Item::Repeat { .. } => blocks.push(OpenBlock::InRepeat)?,
        Item::If { .. } => blocks.push(OpenBlock::InFirst)?,
        Item::Else => begin_else(blocks),
        Item::End => drop(blocks.pop()),
        _ => {}
    }
    Ok(())
}

fn begin_else(blocks: &mut Vec<OpenBlock>)
    ensures { reverse blocks.new.items ≡ behind_else (reverse blocks.old.items) }
{
    if let Some(block) = blocks.last_mut() {
        *block = OpenBlock::InSecond;
    }
}

fn one_more(count: usize) -> u64
    requires { count < 2 ^ 63 }
    ensures { result ≡ count + 1 }
{
    count as u64 + 1
}

fn type_limits(types: u64, words: u64) -> Option<LineFault>
    ensures { result ≡ option_or (spec.at_most types 64 Which.Types) (spec.at_most words 4096 Which.Words) }
{
    at_most(types, 64, Which::Types).or(at_most(words, 4096, Which::Words))
}
