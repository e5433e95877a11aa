//! Runs over devices in memory.

use patr_io::{MemoryShelf, MemorySink, MemorySource};
use patr_shell::{OpenGate, Status, run};
use std::alloc::Global;
use std::sync::Wait;
use std::test::Fail;
use std::thread::Threads;

/// Two files, an input, and how the devices give and fail.
#[derive(Clone, Copy)]
pub struct Setting<'a> {
    pub grammar: &'a [u8],
    pub lexicon: &'a [u8],
    pub input: &'a [u8],
    /// How many bytes a read gives and a write takes at most.
    pub most: usize,
    /// The numbers, from 1, of the calls that fail.
    pub fail_load: u64,
    pub fail_read: u64,
    pub fail_write: u64,
}

/// A setting whose devices never fail, with small pieces.
pub fn well<'a>(grammar: &'a [u8], lexicon: &'a [u8], input: &'a [u8]) -> Setting<'a> {
    Setting {
        grammar,
        lexicon,
        input,
        most: 4096,
        fail_load: 0,
        fail_read: 0,
        fail_write: 0,
    }
}

fn one(alloc: Global, number: u64) -> Result<Vec<u64>, Fail> {
    let mut numbers = Vec::new(alloc);
    numbers.push(number)?;
    Ok(numbers)
}

fn file(alloc: Global, name: &str, bytes: &[u8]) -> Result<(String, Vec<u8>), Fail> {
    Ok((
        String::from_str(alloc, name)?,
        Vec::from_slice(alloc, bytes)?,
    ))
}

/// Runs with these words, and says whether the status has this code and exactly this was written.
pub fn gives<R: Threads + Wait + Sync>(
    rt: &R,
    alloc: Global,
    words: &[&str],
    setting: Setting,
    code: u8,
    written: &[u8],
) -> Result<bool, Fail> {
    let mut owned = Vec::new(alloc);
    for word in words {
        owned.push(String::from_str(alloc, word)?)?;
    }
    let mut files = Vec::new(alloc);
    files.push(file(alloc, "g", setting.grammar)?)?;
    files.push(file(alloc, "l", setting.lexicon)?)?;
    let most = setting.most.max(1);
    let mut shelf = MemoryShelf::new(files, one(alloc, setting.fail_load)?);
    let mut source = MemorySource::new(
        Vec::from_slice(alloc, setting.input)?,
        most,
        one(alloc, setting.fail_read)?,
    );
    let mut sink = MemorySink::new(alloc, 4096, most, one(alloc, setting.fail_write)?)?;
    let status = run(
        rt,
        alloc,
        &owned,
        &mut shelf,
        &mut source,
        &mut sink,
        &OpenGate,
    );
    Ok(status.code() == code && sink.taken() == written)
}
