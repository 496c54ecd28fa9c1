//! Calls of the program over sources and sinks in memory.

ghost use Rattle.std.specs.Prelude.{◌<◌};

use fm_io::{MemSink, MemSource};
use fm_table::Table;
use fm_workers::Workers;
use fmc::{Ran, fmc, play_choices};
use std::alloc::Global;
use std::test::Fail;

/// Workers that give the table back at once.
pub struct Back;

impl Workers<Table> for Back {
    fn drive(&self, table: Table, _count: u32) -> Option<Table> {
        Some(table)
    }
}

/// How a source gives its bytes and a sink takes them: the most bytes of a piece, and the calls that fail, from 1.
pub struct Streams {
    pub read: usize,
    pub read_fails: &'static [u64],
    pub write: usize,
    pub write_fails: &'static [u64],
    ghost some_read: { 0 < read },
    ghost some_write: { 0 < write },
}

/// Whole pieces, and nothing fails.
const SURE: Streams = Streams {
    read: 65_536,
    read_fails: &[],
    write: 65_536,
    write_fails: &[],
};

/// What is answered over these streams, and what was written, where these workers play what is run.
pub fn answer_with<W: Workers<Table>>(
    alloc: Global,
    streams: &Streams,
    words: &[&str],
    source: Vec<u8>,
    workers: &W,
) -> Result<(Ran, Vec<u8>), Fail>
    requires { W.crosses }
{
    let read_fails = Vec::from_slice(alloc, streams.read_fails)?;
    let write_fails = Vec::from_slice(alloc, streams.write_fails)?;
    let mut source = MemSource::new(source, streams.read, read_fails);
    let mut sink = MemSink::new(alloc, streams.write, 65_536, write_fails)?;
    let ran = fmc(alloc, words, &mut source, &mut sink, workers);
    Ok((ran, Vec::from_slice(alloc, sink.bytes())?))
}

/// What is answered over these streams, and what was written.
pub fn answer_over(
    alloc: Global,
    streams: &Streams,
    words: &[&str],
    source: Vec<u8>,
) -> Result<(Ran, Vec<u8>), Fail> {
    answer_with(alloc, streams, words, source, &Back)
}

/// What is answered, and what was written, where these workers play what is run.
pub fn answer_by<W: Workers<Table>>(
    alloc: Global,
    words: &[&str],
    source: &[u8],
    workers: &W,
) -> Result<(Ran, Vec<u8>), Fail>
    requires { W.crosses }
{
    answer_with(
        alloc,
        &SURE,
        words,
        Vec::from_slice(alloc, source)?,
        workers,
    )
}

/// What is answered, and what was written.
pub fn answer(alloc: Global, words: &[&str], source: &[u8]) -> Result<(Ran, Vec<u8>), Fail> {
    answer_over(alloc, &SURE, words, Vec::from_slice(alloc, source)?)
}

/// What a source comes to under these choices, with the variables.
pub fn play(alloc: Global, source: &[u8], choices: &[u64]) -> Result<(Ran, Vec<u8>), Fail> {
    if source.len() > 1_000_000 {
        return Err(Fail::from("source too long"));
    }
    let (ran, text) = play_choices(alloc, source, choices, 100_000, true).map_err(|_| "refused")?;
    Ok((ran, text))
}
