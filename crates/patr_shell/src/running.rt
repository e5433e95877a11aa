//! A run from its words to its end.
ghost use Rattle.std.specs.Prelude.{◌≡◌, ◌⊎◌, map, string_bytes, IfSome};
ghost use Rattle.patr_io.specs.Causes.{HasCause};
ghost use Rattle.patr_shell.specs.Sent.{AppendsFront, PassesOn};
ghost use Rattle.patr_shell.specs.Outcome.{IsEndOf, ended_by_write, Writes, HasRun, CannotRead, KeepsCounts, NoneRose, MayBeDone, IsStatusOf};

use crate::opening::open;
use crate::refusal::{OpeningFault, Refusal};
use crate::sending::send;
use crate::session::run_session;
use crate::{Gate, Status};
use patr_io::{Shelf, Sink, Source};
use std::alloc::Global;
use std::sync::Wait;
use std::thread::Threads;

/// Writes the line of a refusal, and answers how the run ends.
fn refuse<K: Sink>(output: &mut K, refusal: Refusal, line: String) -> Status
    ensures front { AppendsFront (K.written output.old) (K.written output.new)
        (string_bytes line) }
    ensures status { IsEndOf refusal (string_bytes line) result
        (K.written output.old) (K.written output.new) }
    ensures cause { HasCause (K.faults output.old) (K.faults output.new) (ended_by_write result) }
    ensures flushed { PassesOn (ended_by_write result) (K.written output.old) (K.written output.new)
        (K.flushed output.old) (K.flushed output.new) }
{
    match send(output, line.as_bytes()) {
        Ok(()) => Status::from(refusal),
        Err(_) => Status::WriteFault,
    }
}

/// Reads the grammar and the lexicon that the words name, and answers each line of the input on the output, up to its
/// end or to a `:quit`. `gate` is passed before each task of a sentence.
///
/// Every status but a fault of reading or writing and want of memory says that the whole text of the run was written.
/// A refusal of the words or of a file takes nothing of the input, and its line is all that is written. After a fault
/// of reading each line whose end was taken is answered, and after want of memory the first lines are, and no line in
/// part. What was written is passed on, unless a write failed.
pub fn run<R: Threads + Wait + Sync, F: Shelf, S: Source, K: Sink, G: Gate>(
    rt: &R,
    alloc: Global,
    words: &[String],
    shelf: &mut F,
    input: &mut S,
    output: &mut K,
    gate: &G,
) -> Status
    // What is written where the files and the input are told.
    ensures text { IfSome (F.files shelf.old) (λ files. IfSome (S.left input.old) (λ bytes.
        Writes (map string_bytes words.now) files bytes result
        (K.written output.old) (K.written output.new))) }
    // What is taken and written by each status, told or not.
    ensures end { HasRun (map string_bytes words.now) (F.files shelf.old) result
        (S.left input.old) (S.left input.new) (K.written output.old) (K.written output.new) }
    ensures flushed { PassesOn (ended_by_write result) (K.written output.old) (K.written output.new)
        (K.flushed output.old) (K.flushed output.new) }
    ensures cause { IsStatusOf (map string_bytes words.now) (F.files shelf.old) result }
    ensures read { result ≡ Status.ReadFault
        → CannotRead (map string_bytes words.now) (F.files shelf.old)
        (S.faults input.old) (S.faults input.new)
        (F.faults shelf.old) (F.faults shelf.new) (F.failed_name shelf.new) }
    ensures counts { KeepsCounts result (S.faults input.old) (S.faults input.new)
        (F.faults shelf.old) (F.faults shelf.new) (K.faults output.old) (K.faults output.new) }
    // Where words, files and input are as they should be and no device failed, the run is done,
    // or memory was short.
    ensures complete { MayBeDone (map string_bytes words.now) (F.files shelf.old) (S.left input.old)
        → NoneRose (S.faults input.old) (S.faults input.new)
        (F.faults shelf.old) (F.faults shelf.new) (K.faults output.old) (K.faults output.new)
        → (result ≡ Status.Done) ⊎ (result ≡ Status.Memory) }
{
    match open(alloc, words, shelf) {
        Ok(opened) => run_session(alloc, &opened.language, opened.state, input, output, gate),
        Err(OpeningFault::Refused(refusal, line)) => refuse(output, refusal, line),
        Err(OpeningFault::Read) => Status::ReadFault,
        Err(OpeningFault::Memory) => Status::Memory,
    }
}
