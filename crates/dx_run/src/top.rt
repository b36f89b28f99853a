ghost use Rattle.std.specs.Prelude.{◌≡◌, map, string_bytes, []};
ghost use Rattle.dx_outside.specs.Outside.{Rose, FilesNeverFell, SinkNeverFell};
ghost use Rattle.dx_run.specs.Commands.{command_of, translate as translate_command, show as show_command, check as check_command};
ghost use Rattle.dx_run.specs.Runs.{Leaves, IsExact, IsComplete};
ghost use Rattle.dx_run.specs.Outputs.{Finishes, Concluded};

use crate::command_line::{CommandLine, parse_words};
use crate::output::{Output, listing_for, output_for, report_for};
use crate::status::Status;
use dx_outside::{Files, Outage, Sink, Whole, read_whole, say};
use spv_form::Version;
use std::alloc::Global;

const USAGE: &[u8] =
    b"usage: translate IN OUT, translate-13 IN OUT, show IN, check IN, sample N OUT\n";

const TOO_LONG: &[u8] = b"limit file bit 0\n";

/// Says the text and answers the status, or what stands in its place. It takes no memory.
fn conclude<S: Sink>(status: Status, text: &[u8], out: &mut S) -> Status
    ensures answer { Concluded text.now (S.seen out.old) (S.seen out.new) status result }
    ensures counts { SinkNeverFell (S.seen out.old) (S.seen out.new) }
{
    match say(out, text) {
        Ok(()) => status,
        Err(Outage::Failed) => Status::SayFault,
        Err(Outage::OutOfMemory) => Status::OutOfMemory,
    }
}

/// Writes and says what was made. It takes no memory.
fn finish<F: Files, S: Sink>(output: &Output, to: &str, files: &mut F, out: &mut S) -> Status
    ensures leaves { Finishes to.now output.now (F.seen files.old) (S.seen out.old) (F.seen files.new) (S.seen out.new) result }
    ensures file_counts { FilesNeverFell (F.seen files.old) (F.seen files.new) }
    ensures sink_counts { SinkNeverFell (S.seen out.old) (S.seen out.new) }
{
    let Some(bytes) = &output.bytes else {
        return conclude(output.status, output.text.as_slice(), out);
    };
    match files.write_new(to, bytes.as_slice()) {
        Ok(()) => conclude(output.status, output.text.as_slice(), out),
        Err(Outage::Failed) => Status::WriteFault,
        Err(Outage::OutOfMemory) => Status::OutOfMemory,
    }
}

/// The command `translate IN OUT` or `translate-13 IN OUT`.
fn translate_file<F: Files, S: Sink>(
    alloc: Global,
    version: Version,
    from: &str,
    to: &str,
    files: &mut F,
    out: &mut S,
) -> Status
    ensures leaves { Leaves (translate_command version from.now to.now) (F.seen files.old) (S.seen out.old) (F.seen files.new) (S.seen out.new) result }
    ensures file_counts { FilesNeverFell (F.seen files.old) (F.seen files.new) }
    ensures sink_counts { SinkNeverFell (S.seen out.old) (S.seen out.new) }
{
    match read_whole(alloc, files, from) {
        Whole::Read(bytes) => match output_for(alloc, bytes.as_slice(), version) {
            Ok(output) => finish(&output, to, files, out),
            Err(_) => Status::OutOfMemory,
        },
        Whole::TooLong => conclude(Status::Limit, TOO_LONG, out),
        Whole::Failed => Status::ReadFault,
        Whole::OutOfMemory => Status::OutOfMemory,
    }
}

/// The command `show IN`.
fn show_file<F: Files, S: Sink>(alloc: Global, from: &str, files: &mut F, out: &mut S) -> Status
    ensures leaves { Leaves (show_command from.now) (F.seen files.old) (S.seen out.old) (F.seen files.new) (S.seen out.new) result }
    ensures file_counts { FilesNeverFell (F.seen files.old) (F.seen files.new) }
    ensures sink_counts { SinkNeverFell (S.seen out.old) (S.seen out.new) }
{
    match read_whole(alloc, files, from) {
        Whole::Read(bytes) => match listing_for(alloc, bytes.as_slice()) {
            Ok(output) => conclude(output.status, output.text.as_slice(), out),
            Err(_) => Status::OutOfMemory,
        },
        Whole::TooLong => conclude(Status::Limit, TOO_LONG, out),
        Whole::Failed => Status::ReadFault,
        Whole::OutOfMemory => Status::OutOfMemory,
    }
}

/// The command `check IN`.
fn check_words<F: Files, S: Sink>(alloc: Global, from: &str, files: &mut F, out: &mut S) -> Status
    ensures leaves { Leaves (check_command from.now) (F.seen files.old) (S.seen out.old) (F.seen files.new) (S.seen out.new) result }
    ensures file_counts { FilesNeverFell (F.seen files.old) (F.seen files.new) }
    ensures sink_counts { SinkNeverFell (S.seen out.old) (S.seen out.new) }
{
    match read_whole(alloc, files, from) {
        Whole::Read(bytes) => match report_for(alloc, bytes) {
            Ok(output) => conclude(output.status, output.text.as_slice(), out),
            Err(_) => Status::OutOfMemory,
        },
        Whole::TooLong => conclude(Status::Limit, TOO_LONG, out),
        Whole::Failed => Status::ReadFault,
        Whole::OutOfMemory => Status::OutOfMemory,
    }
}

/// Does what the words ask.
fn perform<F: Files, S: Sink>(alloc: Global, words: &[String], files: &mut F, out: &mut S) -> Status
    ensures leaves { Leaves (command_of (map string_bytes words.now)) (F.seen files.old) (S.seen out.old) (F.seen files.new) (S.seen out.new) result }
    ensures file_counts { FilesNeverFell (F.seen files.old) (F.seen files.new) }
    ensures sink_counts { SinkNeverFell (S.seen out.old) (S.seen out.new) }
    ensures empty { words.now ≡ [] → result ≡ Status.OutOfMemory → Rose (S.seen out.old).lacks (S.seen out.new).lacks }
{
    match parse_words(words) {
        CommandLine::Translate { version, from, to } => {
            translate_file(alloc, version, from, to, files, out)
        }
        CommandLine::Show { from } => show_file(alloc, from, files, out),
        CommandLine::Check { from } => check_words(alloc, from, files, out),
        CommandLine::Unknown => conclude(Status::Usage, USAGE, out),
    }
}

/// Does what the words of the command line ask, and answers how it ended.
///
/// The words are those after the program's name. All memory is taken before the output file is written.
#[tactic(auto, using(crate::proofs::Leaving::exact, crate::proofs::Leaving::complete))]
pub fn run<F: Files, S: Sink>(alloc: Global, words: &[String], files: &mut F, out: &mut S) -> Status
    // why the status came, and what it leaves in the files and the sink
    ensures leaves { Leaves (command_of (map string_bytes words.now)) (F.seen files.old) (S.seen out.old) (F.seen files.new) (S.seen out.new) result }
    // where the files are told, no status comes in place of another answer's, but for a fault and want of memory
    ensures exact { IsExact (command_of (map string_bytes words.now)) (F.seen files.old) result }
    // where nothing outside fails, the answer's status comes, but for want of memory
    ensures complete { IsComplete (command_of (map string_bytes words.now)) (F.seen files.old) (S.seen out.old) (F.seen files.new) (S.seen out.new) result }
    // without words it takes no memory of its own
    ensures empty { words.now ≡ [] → result ≡ Status.OutOfMemory → Rose (S.seen out.old).lacks (S.seen out.new).lacks }
    ensures file_counts { FilesNeverFell (F.seen files.old) (F.seen files.new) }
    ensures sink_counts { SinkNeverFell (S.seen out.old) (S.seen out.new) }
{
    perform(alloc, words, files, out)
}
