use facet_disk::MemoryDisk;
use std::alloc::Global;
use std::hash::RandomState;

/// What the next invocation starts with, and the disk that was kept.
#[derive(Drop)]
pub struct Setup {
    /// The hash keys of labels and terms.
    pub keys: RandomState,
    /// The script so far.
    pub script: Vec<u8>,
    /// The command-line arguments.
    pub words: Vec<String>,
    /// How many bytes a read returns at most.
    pub piece: usize,
    /// The reads of the script that fail, counted from 1.
    pub reads: Vec<u64>,
    /// The writes of replies that fail, counted from 1.
    pub writes: Vec<u64>,
    /// The session that is held until another was answered, or 0.
    pub held: u32,
    /// The disk of the next invocation.
    pub disk: MemoryDisk,
    /// The disk that was kept.
    pub kept: MemoryDisk,
}

impl Setup {
    /// Returns a setup without a script and arguments, over an empty disk, in which nothing fails.
    pub fn new(alloc: Global, keys: RandomState) -> Setup {
        Setup {
            keys,
            script: Vec::new(alloc),
            words: Vec::new(alloc),
            piece: 4096,
            reads: Vec::new(alloc),
            writes: Vec::new(alloc),
            held: 0,
            disk: empty_disk(alloc),
            kept: empty_disk(alloc),
        }
    }

    /// Adds a line to the script.
    pub fn add_line(&mut self, line: &str) -> anyhow::Result<()> {
        self.script.extend_from_slice(line.as_bytes())?;
        self.script.push(b'\n')?;
        Ok(())
    }
}

/// Returns a disk without a file, none of whose calls fail.
pub fn empty_disk(alloc: Global) -> MemoryDisk {
    MemoryDisk::new(alloc, Vec::new(alloc))
}
