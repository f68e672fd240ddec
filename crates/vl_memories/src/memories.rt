//! Memories.

ghost use Rattle.std.specs.Prelude.{◌≡◌, ◌++◌, ◌∷◌, [], length, map, IfOk, OnOk};
ghost use Rattle.vl_design.specs.Objects.{counted_behind};
ghost use Rattle.vl_design.specs.Design as design;
ghost use Rattle.vl_scopes.specs.Plain.{plain_scopes};
ghost use Rattle.vl_declares.specs.Plain.{all_plain, plain};
ghost use Rattle.vl_repeats.specs.Flags.{picked};
ghost use Rattle.vl_memories.specs.Numbered.{AddsMemories, HasMemory, memory_by, one_if, scope_at};

use std::alloc::{AllocError, Global};
use vl_declares::declared::Declared;
use vl_objects::object::{Range, range_of};
use vl_repeats::repeats::find_repeats;
use vl_scopes::scope::Scope;
use vl_tree::expression::Name;

/// A memory: the number of its scope, its name, the range of its words' bits, and the indices of its first and its last word.
#[derive(Clone, Copy)]
pub struct Memory<'a> {
    pub scope: usize,
    pub name: &'a Name,
    pub range: Range,
    pub first: u32,
    pub last: u32,
}

/// The memories of all scopes.
pub fn memories<'a>(alloc: Global, scopes: &[Scope<'a>]) -> Result<Vec<Memory<'a>>, AllocError>
    ensures { let ss = plain_scopes scopes.now in
        IfOk result (λ ys. map (memory_by (scope_at ss)) ys.items ≡ design.memories ss) }
{
    let mut memories = Vec::new(alloc);
    for k in 0..scopes.len() {
        push_all(alloc, k, scopes[k].declared.as_slice(), &mut memories)?;
    }
    Ok(memories)
}

// Appends those of one scope.
fn push_all<'a>(
    alloc: Global,
    scope: usize,
    declared: &[Declared<'a>],
    memories: &mut Vec<Memory<'a>>,
) -> Result<(), AllocError>
    ensures { let ds = counted_behind [] (all_plain declared.now) in
        OnOk result (AddsMemories scope ds memories.old.items memories.new.items) }
{
    let repeats = find_repeats(alloc, declared)?;
    push_counted(scope, repeats.counted.as_slice(), declared, memories)
}

// Appends those whose declaration counts.
fn push_counted<'a>(
    scope: usize,
    counted: &[bool],
    declared: &[Declared<'a>],
    memories: &mut Vec<Memory<'a>>,
) -> Result<(), AllocError>
    requires { length counted.now ≡ length declared.now }
    ensures { let ds = picked counted.now (all_plain declared.now) in
        OnOk result (AddsMemories scope ds memories.old.items memories.new.items) }
{
    for k in 0..declared.len() {
        push_if(scope, counted[k], &declared[k], memories)?;
    }
    Ok(())
}

// Appends the memory of a declaration that counts, if it declares one.
fn push_if<'a>(
    scope: usize,
    counts: bool,
    declared: &Declared<'a>,
    memories: &mut Vec<Memory<'a>>,
) -> Result<(), AllocError>
    ensures { let ds = one_if counts (plain declared.now) in
        OnOk result (AddsMemories scope ds memories.old.items memories.new.items) }
{
    if !counts {
        return Ok(());
    }
    match memory_of(scope, declared) {
        Some(memory) => push(memories, memory),
        None => Ok(()),
    }
}

fn push<'a>(memories: &mut Vec<Memory<'a>>, memory: Memory<'a>) -> Result<(), AllocError>
    ensures { let m = memory.entry in
        OnOk result (memories.new.items ≡ memories.old.items ++ m ∷ []) }
{
    match memories.push(memory) {
        Ok(()) => Ok(()),
        Err(_) => Err(AllocError),
    }
}

fn memory_of<'a>(scope: usize, declared: &Declared<'a>) -> Option<Memory<'a>>
    ensures { let d = plain declared.now in
        HasMemory scope d result }
{
    match declared {
        Declared::Memory(local, words) => {
            let (first, last) = words.words();
            Some(Memory {
                scope,
                name: local.name,
                range: range_of(local.span, local.signed),
                first,
                last,
            })
        }
        Declared::Port(_, _, _) => None,
        Declared::Object(_, _) => None,
        Declared::Parameter(_, _) => None,
        Declared::Genvar(_) => None,
        Declared::Routine(_) => None,
        Declared::Inner(_) => None,
    }
}
