#![tactic(auto)]
//! A first program on a heap: an object of one number.
//! What it loads is the number that it stored, or null if the heap was full.
//! Start with `hello`, which is all of it.
ghost use Rattle.std.specs.Prelude.{◌≡◌, ◌⊎◌, IfOk};
ghost use Rattle.mk_heap.specs.Below.Core.declared.events.Answer.TheVariants as answer;

use mk_heap::{
    Answer, Config, Engine, GlobalTable, Heap, Kind, NoMemory, Op, StopEngine, TypeTable,
    answer_when_open, free_object, new_object,
};
use std::alloc::Global;
use std::sync::Wait;
use std::thread::Threads;

/// Makes an object, stores 42 in it, loads it, frees the object and closes the heap.
pub fn hello<R: Threads + Wait + Sync>(rt: &R, alloc: Global) -> Result<Answer, NoMemory>
    ensures { IfOk result (λ loaded. (loaded ≡ answer.Num 42) ⊎ (loaded ≡ answer.Null)) }
{
    let mut types = TypeTable::new(alloc);
    types.add(vec![in alloc; Kind::Num]?)?;
    let config = Config {
        pages: 1,
        resident: 1,
        callers: 1,
        markers: 0,
        types,
        globals: GlobalTable::new(alloc),
    };
    let mut engine = StopEngine::make(alloc, 1)?;
    let (heap, mut host) = Heap::new(alloc, &config)?;
    let mut caller = host.caller(&heap);
    let _made = new_object(rt, &mut caller, &mut engine, 0, 0);
    let _stored = answer_when_open(rt, &mut caller, Op::SetNum { q: 0, i: 0, n: 42 });
    let loaded = answer_when_open(rt, &mut caller, Op::GetNum { q: 0, i: 0 });
    let _freed = free_object(rt, &mut caller, &mut engine, 0);
    host.join_caller(&heap, caller.finish());
    heap.close(host);
    Ok(loaded)
}
