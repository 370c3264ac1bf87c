//! What is left to read.

use crate::buffer::Buffer;

/// The miniblock that is being read and the bytes behind it.
#[derive(Drop)]
pub struct State<'a> {
    /// how many bytes there were in all
    pub length: usize,
    /// how many miniblocks a block has, and how many times eight numbers a miniblock
    pub miniblocks: usize,
    pub groups: usize,
    /// the bytes behind the miniblock, the widths of the block's miniblocks behind it, and how many deltas are wanted of them
    pub bytes: &'a [u8],
    pub widths: &'a [u8],
    pub left: usize,
    /// how many bytes the last miniblock lacks, behind its last wanted number
    pub missing: u128,
    /// the packed numbers of the miniblock that stand there and are wanted, and whether more are wanted than stand there
    pub packed: &'a [u8],
    pub width: u32,
    pub standing: usize,
    pub cut: bool,
    /// the packed numbers that were taken, the block's least delta, and the number before them
    pub buffer: Buffer,
    pub least: i64,
    pub latest: i64,
}
