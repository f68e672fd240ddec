//! The words of memories, as a run keeps them.

ghost use Rattle.std.specs.Prelude.{◌≡◌, ◌<◌, ◌^◌, [], map, is_some, if◌then◌else◌, IfOk};
ghost use Rattle.std.specs.List.{All};
ghost use Rattle.netlist.specs.Run.{all_words};
ghost use Rattle.step_program.specs.Values.{contents};
ghost use Rattle.held_state.specs.Kept as kept;
ghost use Rattle.held_state.specs.States.{MemoriesFit, WordsFit};

use dt_core::limits::MAX_WIDTH;
use netlist::design::Memory;
use std::alloc::{AllocError, Global};
use step_program::words::MemoryWords;

// A copy of words of this width.
fn copied(alloc: Global, width: u32, words: &[u128]) -> Result<MemoryWords, AllocError>
    requires { All (λ x. x < 2 ^ width) words.now }
    ensures words { IfOk result (λ w. kept.AreWords width w) }
    ensures same { IfOk result (λ w. contents w ≡ words.now) }
{
    if width > 64 {
        return Ok(MemoryWords::Wide(words.to_vec(alloc)?));
    }
    let mut narrow = Vec::with_capacity(alloc, words.len())?;
    for word in words {
        narrow.push(*word as u64)?;
    }
    Ok(MemoryWords::Narrow(narrow))
}

// The words of a memory in the first cycle.
fn own_words(alloc: Global, memory: &Memory) -> Result<MemoryWords, AllocError>
    requires { All (λ x. x < 2 ^ memory.now.width) memory.now.words }
    ensures kept { IfOk result (λ w. kept.IsKept memory.now w) }
    ensures same { IfOk result (λ w. contents w ≡ memory.now.words) }
{
    copied(alloc, memory.width, &memory.words)
}

/// The words of all memories in the first cycle.
pub(crate) fn first_words(
    alloc: Global,
    memories: &[Memory],
) -> Result<Vec<MemoryWords>, AllocError>
    requires { All (λ m. All (λ x. x < 2 ^ m.width) m.words) memories.now }
    ensures kept { IfOk result (λ v. kept.AllKept memories.now v.items) }
    ensures same { IfOk result (λ v. map contents v.items ≡ map (λ m. m.words) memories.now) }
{
    let mut words = Vec::new(alloc);
    for memory in memories {
        words.push(own_words(alloc, memory)?)?;
    }
    Ok(words)
}

// The words of a memory, where the state's are these if some block writes it.
fn words_for(alloc: Global, memory: &Memory, state: &[u128]) -> Result<MemoryWords, AllocError>
    requires memory { All (λ x. x < 2 ^ memory.now.width) memory.now.words }
    requires state { WordsFit (is_some memory.now.writer) memory.now state.now }
    ensures kept { IfOk result (λ w. kept.IsKept memory.now w) }
    ensures same { IfOk result (λ w. contents w
        ≡ (if is_some memory.now.writer then state.now else memory.now.words)) }
{
    match memory.writer {
        Some(_) => copied(alloc, memory.width, state),
        None => own_words(alloc, memory),
    }
}

/// The words of all memories, where the state's are those of the memories that some block writes.
pub(crate) fn words_of(
    alloc: Global,
    memories: &[Memory],
    state: &[Vec<u128>],
) -> Result<Vec<MemoryWords>, AllocError>
    requires memories { All (λ m. All (λ x. x < 2 ^ m.width) m.words) memories.now }
    requires state { MemoriesFit memories.now (map (λ v. v.items) state.now) }
    ensures kept { IfOk result (λ v. kept.AllKept memories.now v.items) }
    ensures same { IfOk result (λ v. map contents v.items ≡ all_words memories.now (map (λ v. v.items) state.now)) }
{
    let mut words = Vec::new(alloc);
    for (k, memory) in memories.iter().enumerate() {
        words.push(words_for(alloc, memory, &state[k])?)?;
    }
    Ok(words)
}

// Narrow words as numbers.
fn widened(alloc: Global, words: &[u64]) -> Result<Vec<u128>, AllocError>
    ensures { IfOk result (λ v. v.items ≡ words.now) }
{
    let mut numbers = Vec::with_capacity(alloc, words.len())?;
    for word in words {
        numbers.push(u128::from(*word))?;
    }
    Ok(numbers)
}

// A copy of the words that a run keeps.
fn numbers(alloc: Global, words: &MemoryWords) -> Result<Vec<u128>, AllocError>
    ensures { IfOk result (λ v. v.items ≡ contents words.now) }
{
    match words {
        MemoryWords::Narrow(words) => widened(alloc, words),
        MemoryWords::Wide(words) => Ok(words.to_vec(alloc)?),
    }
}

// The words of a memory that some block writes, and of another one none.
fn state_words_of(
    alloc: Global,
    memory: &Memory,
    words: &MemoryWords,
) -> Result<Vec<u128>, AllocError>
    ensures { IfOk result (λ v. v.items ≡ (if is_some memory.now.writer then contents words.now else [])) }
{
    match memory.writer {
        Some(_) => numbers(alloc, words),
        None => Ok(Vec::new(alloc)),
    }
}

/// The words of the memories that some block writes, and of each other one none.
pub(crate) fn state_words(
    alloc: Global,
    memories: &[Memory],
    words: &[MemoryWords],
) -> Result<Vec<Vec<u128>>, AllocError>
    requires { kept.AllKept memories.now words.now }
    ensures { IfOk result (λ v. map (λ v. v.items) v.items ≡ kept.state_words memories.now (map contents words.now)) }
{
    let mut state = Vec::new(alloc);
    for (k, memory) in memories.iter().enumerate() {
        state.push(state_words_of(alloc, memory, &words[k])?)?;
    }
    Ok(state)
}
