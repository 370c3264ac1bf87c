//! The top call.
ghost use Rattle.std.specs.Prelude.{◌≡◌, ◌≢◌, ◌≤◌, ◌↔◌, ◌⊎◌, ◌++◌, ℕ, Some, None, codes};
ghost use Rattle.std.specs.Io.KnownBytes.{Keeps};
ghost use Rattle.columns_base.specs.declared.error.Error.{Error};
ghost use Rattle.pq_io.specs.Causes.{Rose};
ghost use Rattle.pq_io.specs.Reading.{GaveSome};
ghost use Rattle.pq_headline.specs.Stages.{Valid};
ghost use Rattle.rewrite_words.specs.declared.options.RewriteOptions.{RewriteOptions};
ghost use Rattle.rewrite_whole.specs.Answer.{ends, meaning};
ghost use Rattle.rewrite_whole.specs.Asks.{Causes, Gives, asked_by, codec_of};
ghost use Rattle.rewrite_whole.specs.Views.{Grows};
ghost use Rattle.pq_rewrite.specs.Ended.{AreDeclined, AreTaken, Ended, asked_in};
ghost use Rattle.pq_rewrite.specs.Sampled.{Sampled, sample_in};
ghost use Rattle.rewrite_notes.specs.Notes.{Told};
ghost use Rattle.pq_rewrite.specs.Run.{Converts, ConvertsInPart, Held, IsRefusedFor, words_of};

use crate::sampling::run_sample;
use pq_headline::refused_is_not_valid;
use pq_io::{Sink, Source};
use rewrite_notes::{status_of, tell_answer, tell_bad_words};
use rewrite_whole::{View, rewrite};
use rewrite_words::{RewriteOptions, forms_exclude, read_sample, read_words};
use schema_codec::SchemaCodec;
use std::alloc::Global;

/// Rewrites as the options ask, puts a line on the notes, and answers the status.
fn run_with<S: Source, K: Sink, M: Sink, C: SchemaCodec, V: View>(
    alloc: Global,
    options: RewriteOptions,
    source: &mut S,
    sink: &mut K,
    notes: &mut M,
    codec: &C,
    view: &mut V,
) -> u8
    ensures ended { Ended options
        (meaning
        (Gives (codec_of (C.bytes_of codec.now) (C.reads codec.now)) (asked_by options) (V.seen view.old)
        (V.seen view.new)) (Causes (codec_of (C.bytes_of codec.now) (C.reads codec.now)) (asked_by options)))
        (ends S.left S.faults K.taken K.faults source.old source.new sink.old sink.new)
        (Told M.taken M.faults M.wants notes.old notes.new)
        ((source.new ≡ source.old) × (sink.new ≡ sink.old) × (view.new ≡ view.old)) (sink.new ≡ sink.old) result }
    ensures read_some { GaveSome options.byte_limit (S.left source.old) (S.left source.new) }
    ensures reads_later { S.faults source.old ≤ S.faults source.new }
    ensures writes_later { K.faults sink.old ≤ K.faults sink.new }
    ensures shown { Grows (V.seen view.old) (V.seen view.new) }
{
    let answer = rewrite(alloc, source, sink, codec, options, view);
    tell_answer(notes, &answer);
    status_of(&answer)
}

/// Reads a file from the source, writes its rows anew to the sink as the words ask, shows each group to the view, and puts one line on the
/// notes. Or, for the words `sample N`, makes a sample of N rows in memory, shows its pieces to the view, and puts two lines on the notes; nothing
/// is read and nothing is written then, and the codec is not used.
///
/// The words are those of `read_words` or of `read_sample`. The answer is the status with which the program ends: 0 where the file was rewritten
/// or the sample made, 2 for words in another form, 3 and 4 where source or sink failed, 5 for an input that is too long or claims too many level
/// pairs, 6 for one that is out of the format, 7 for what is not read or written yet, 8 and 9 for a schema or sizes that no file has (8 too for a
/// chunk size of no rows), and 10 where memory ran out. The line names the reason.
pub fn run<S: Source, K: Sink, M: Sink, C: SchemaCodec, V: View>(
    alloc: Global,
    words: &[String],
    source: &mut S,
    sink: &mut K,
    notes: &mut M,
    codec: &C,
    view: &mut V,
) -> u8
    // The source held an input, the sink gained the file that it is rewritten to, as the words ask, and nothing else, and the notes say how much.
    ensures ok { sample_in words.now ≡ None → result ≡ 0 → (o : RewriteOptions) × (asked_in words.now ≡ Some o)
        × Converts (Gives (codec_of (C.bytes_of codec.now) (C.reads codec.now)) (asked_by o) (V.seen view.old)
        (V.seen view.new)) o.byte_limit (S.left source.old) (S.left source.new) (K.taken sink.old) (K.taken sink.new)
        (Told M.taken M.faults M.wants notes.old notes.new) }
    // A sample was made, or memory ran out.
    ensures sampled { (n : ℕ) → sample_in words.now ≡ Some n → Sampled n (V.seen view.old) (V.seen view.new)
        (Told M.taken M.faults M.wants notes.old notes.new)
        ((source.new ≡ source.old) × (sink.new ≡ sink.old)) result }
    // Why it ended otherwise.
    ensures bad_words { (result ≡ 2) ↔ ((asked_in words.now ≡ None) × (sample_in words.now ≡ None)) }
    ensures read_fault { result ≡ 3 → Rose (S.faults source.old) (S.faults source.new) }
    ensures write_fault { result ≡ 4 → Rose (K.faults sink.old) (K.faults sink.new) }
    ensures refused { (5 ≤ result) × (result ≤ 9) → (o : RewriteOptions) × (asked_in words.now ≡ Some o)
        × (AreDeclined o (Told M.taken M.faults M.wants notes.old notes.new)
        ((source.new ≡ source.old) × (sink.new ≡ sink.old) × (view.new ≡ view.old)) result
        ⊎ ((e : Error) × IsRefusedFor
        (Causes (codec_of (C.bytes_of codec.now) (C.reads codec.now)) (asked_by o)) o.byte_limit (S.left source.old)
        (S.left source.new) (Told M.taken M.faults M.wants notes.old notes.new) result e)) }
    ensures no_other { (result ≡ 0) ⊎ ((2 ≤ result) × (result ≤ 10)) }
    // When it has to come.
    ensures declined { (o : RewriteOptions) → asked_in words.now ≡ Some o → (¬ AreTaken o)
        → AreDeclined o (Told M.taken M.faults M.wants notes.old notes.new)
        ((source.new ≡ source.old) × (sink.new ≡ sink.old) × (view.new ≡ view.old)) result }
    ensures complete { (o : RewriteOptions) → asked_in words.now ≡ Some o → AreTaken o
        → Rose (S.faults source.old) (S.faults source.new) ⊎ Rose (K.faults sink.old) (K.faults sink.new)
        ⊎ (result ≡ 0) ⊎ (result ≡ 10) ⊎ Held (S.left source.old)
        (λ bytes. ¬ Valid (codec_of (C.bytes_of codec.now) (C.reads codec.now)) (asked_by o) bytes) }
    // What stands after it.
    ensures after_words { result ≡ 2 → (source.new ≡ source.old) × (sink.new ≡ sink.old) × (view.new ≡ view.old) }
    ensures after_refusal { (result ≡ 3) ⊎ ((5 ≤ result) × (result ≤ 9)) → sink.new ≡ sink.old }
    ensures after_write_fault { result ≡ 4 → (o : RewriteOptions) × (asked_in words.now ≡ Some o)
        × ConvertsInPart (Gives (codec_of (C.bytes_of codec.now) (C.reads codec.now)) (asked_by o) (V.seen view.old)
        (V.seen view.new)) o.byte_limit (S.left source.old) (S.left source.new) (K.taken sink.old) (K.taken sink.new) }
    ensures after_memory { sample_in words.now ≡ None → result ≡ 10 → (o : RewriteOptions)
        × (asked_in words.now ≡ Some o) × (Keeps (K.taken sink.old) (K.taken sink.new)
        ⊎ ConvertsInPart (Gives (codec_of (C.bytes_of codec.now) (C.reads codec.now)) (asked_by o) (V.seen view.old)
        (V.seen view.new)) o.byte_limit (S.left source.old) (S.left source.new) (K.taken sink.old)
        (K.taken sink.new)) }
    ensures reads_later { S.faults source.old ≤ S.faults source.new }
    ensures writes_later { K.faults sink.old ≤ K.faults sink.new }
    ensures read_some { (o : RewriteOptions) → asked_in words.now ≡ Some o
        → GaveSome o.byte_limit (S.left source.old) (S.left source.new) }
    ensures shown { Grows (V.seen view.old) (V.seen view.new) }
    // The line on the notes of a status that names no reason.
    ensures note { (result ≡ 2) ⊎ (result ≡ 3) ⊎ (result ≡ 4) ⊎ (result ≡ 10)
        → Told M.taken M.faults M.wants notes.old notes.new (words_of result ++ codes "\n") }
{
    forms_exclude();
    refused_is_not_valid();
    if let Some(count) = read_sample(words) {
        return run_sample(alloc, count, notes, view);
    }
    match read_words(words) {
        Some(options) => run_with(alloc, options, source, sink, notes, codec, view),
        None => {
            tell_bad_words(notes);
            2
        }
    }
}
