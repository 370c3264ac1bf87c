//! The output in the making.
use columns_base::Error;
use pq_io::PieceSink;
use write_groups::FileWriter;

/// The file that is written in memory, or why the output is refused. A refusal waits until all pages of the input are read, since reasons of
/// the input go before reasons of the output.
#[derive(Drop)]
pub struct Output {
    pub writer: FileWriter<PieceSink>,
    pub refusal: Option<Error>,
}
