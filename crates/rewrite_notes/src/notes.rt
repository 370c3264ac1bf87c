//! The lines of the notes, and the status.
ghost use Rattle.std.specs.Prelude.{◌≡◌, ◌≤◌, [], length};
ghost use Rattle.rewrite_notes.specs.Notes.{report_text, sample_text, line as answer_line, bad_words, error_status, status as answer_status, Told};
ghost use Rattle.rewrite_notes.specs.Line.{line_bytes};

use crate::{Line, Report};
use columns_base::{Error, Result};
use pq_io::{Sink, push_all};

#[tactic(auto, using(crate::proofs::Numbers::length_decimal), unfolding(crate::specs::Notes::report_text))]
fn put_report(line: &mut Line, report: &Report)
    requires { line_bytes line.old ≡ [] }
    ensures text { line_bytes line.new ≡ report_text report.now }
    ensures short { length (line_bytes line.new) ≤ 90 }
{
    line.text(b"groups ");
    line.number(report.groups);
    line.text(b", rows ");
    line.number(report.rows);
    line.text(b", pages ");
    line.number(report.data_pages);
}

#[tactic(auto, using(crate::proofs::ErrorTexts::length_error_text))]
fn put_answer(line: &mut Line, answer: &Result<Report>)
    requires { line_bytes line.old ≡ [] }
    ensures { line_bytes line.new ≡ answer_line answer.now }
{
    match answer {
        Ok(report) => put_report(line, report),
        Err(error) => line.text(error.text().as_bytes()),
    }
    line.text(b"\n");
}

/// Puts bytes on the notes; a fault of the notes is passed over.
fn tell<M: Sink>(notes: &mut M, bytes: &[u8])
    ensures { Told M.taken M.faults M.wants notes.old notes.new bytes.now }
{
    match push_all(notes, bytes) {
        Ok(()) => {}
        Err(_) => {}
    }
}

/// Puts the line of an answer on the notes.
pub fn tell_answer<M: Sink>(notes: &mut M, answer: &Result<Report>)
    ensures { Told M.taken M.faults M.wants notes.old notes.new (answer_line answer.now) }
{
    let mut line = Line::new();
    put_answer(&mut line, answer);
    tell(notes, line.bytes());
}

#[tactic(auto, using(crate::proofs::Numbers::length_decimal), unfolding(crate::specs::Notes::sample_text))]
fn put_sample(line: &mut Line, report: &Report, count: u64, sum: u64)
    requires { line_bytes line.old ≡ [] }
    ensures { line_bytes line.new ≡ sample_text report.now count sum }
{
    put_report(line, report);
    line.text(b"\nitems ");
    line.number(count);
    line.text(b", sum ");
    line.number(sum);
    line.text(b"\n");
}

/// Puts the two lines of a sample on the notes: its report, and the number and the sum of its items.
pub fn tell_sample<M: Sink>(notes: &mut M, report: &Report, count: u64, sum: u64)
    ensures { Told M.taken M.faults M.wants notes.old notes.new (sample_text report.now count sum) }
{
    let mut line = Line::new();
    put_sample(&mut line, report, count, sum);
    tell(notes, line.bytes());
}

/// Puts the line of words that are refused on the notes.
pub fn tell_bad_words<M: Sink>(notes: &mut M)
    ensures { Told M.taken M.faults M.wants notes.old notes.new bad_words }
{
    tell(notes, b"bad words\n");
}

fn status_of_error(error: Error) -> u8
    ensures { result ≡ error_status error }
{
    match error {
        Error::ReadFault => 3,
        Error::WriteFault => 4,
        Error::InputLimit(_) => 5,
        Error::OutOfSpec(_) => 6,
        Error::NotYetImplemented(_) => 7,
        Error::InvalidArgumentError(_) => 8,
        Error::Overflow(_) => 9,
        Error::Memory => 10,
    }
}

/// The status that an answer ends with.
pub fn status_of(answer: &Result<Report>) -> u8
    ensures { result ≡ answer_status answer.now }
{
    match answer {
        Ok(_) => 0,
        Err(error) => status_of_error(*error),
    }
}
