//! Files of every form and damage, each with what a run answers on it.

pub(crate) mod bases;
pub(crate) mod counted;
pub(crate) mod framed;
pub(crate) mod grouped;
pub(crate) mod keyed;
pub(crate) mod large;
pub(crate) mod leveled;
pub(crate) mod nested;
pub(crate) mod paged;
pub(crate) mod placed;
pub(crate) mod schemas;
pub(crate) mod spelled;
pub(crate) mod trees;
pub(crate) mod typed;

/// A file, the file that it is rewritten as (none: no bytes), the status with which a run on it ends, and the line on the notes.
pub(crate) struct File {
    pub(crate) name: &'static str,
    pub(crate) bytes: &'static [u8],
    pub(crate) like: &'static [u8],
    pub(crate) status: u8,
    pub(crate) line: &'static [u8],
}

/// A file of one column of byte strings, each of so many zeros behind its length, and the line on the notes.
pub(crate) struct Long {
    pub(crate) front: &'static [u8],
    pub(crate) length: &'static [u8],
    pub(crate) size: usize,
    pub(crate) rows: usize,
    pub(crate) back: &'static [u8],
    pub(crate) line: &'static [u8],
}
