ghost use Rattle.std.specs.Prelude.{◌≡◌, All, IfOk, IfSome, None, false, map, option_map, string_bytes};
ghost use Rattle.vf_io.specs.Files.{bytes_of};
ghost use Rattle.cl_moves.specs.Moves.{IsMove};
ghost use Rattle.report_text.specs.Marking.{marking_of};
ghost use Rattle.clverify.specs.Asked.{MayBeAsked, command_seen};
ghost use Rattle.clverify.specs.Commands.{mark_moves};
ghost use Rattle.clverify.specs.Commands.Point.{IsTrueMarking, MarksTruly, marked, point_due, point_usual, point_words};
ghost use Rattle.move_cutters.specs.Cutters.{first_low};
ghost use Rattle.job_inputs.specs.Inputs.{is_read_fault};
ghost use Rattle.point_marks.specs.Marks.{marks_for};
ghost use Rattle.point_marks.specs.Questions.{IsQuestion};
ghost use Rattle.job_inputs.specs.Reads.{ReadsOnce};
ghost use Rattle.clverify.specs.Settled.{IsReport};

use crate::commands::Command;
use crate::commands::question::read_question;
use crate::reply::Reply;
use crate::status::Status;
use cl_moves::Program;
use input_faults::{Fault, Stopped};
use job_inputs::read_moves;
use move_cutters::{CutterDefaults, low_cutter};
use point_marks::{Question, marks_of};
use report_text::point_text;
use std::alloc::Global;
use vf_io::{NoMemory, Shelf};

/// A move without a cutter has none, and a cutter without a height has the greatest height.
const USUAL: CutterDefaults = CutterDefaults {
    cutter: None,
    height: 300_000,
};

/// The command that the words after `point` stand for.
pub(crate) fn point_words(words: &[String]) -> Option<Command<'_>>
    ensures command { option_map command_seen result
        ≡ option_map (λ asked. mark_moves asked.0 asked.1) (point_words (map string_bytes words.now)) }
    ensures valid { IfSome result MayBeAsked }
{
    let [file, more @ ..] = words else {
        return None;
    };
    if file.is_empty() {
        return None;
    }
    Some(Command::Point {
        file: file.as_str(),
        question: read_question(more)?,
    })
}

/// Marks the moves of a file.
pub(crate) fn point_report<S: Shelf>(
    alloc: Global,
    file: &str,
    question: &Question,
    shelf: &mut S,
) -> Result<Reply, Stopped>
    requires question { IsQuestion question.now }
    requires allowed { S.allows shelf.old file.now }
    ensures report { IfSome (S.files shelf.old) (λ files. IsReport result (point_due file.now question.now files)) }
    ensures clean { IfOk result (λ answer. answer.status ≡ Status.Clean) }
    ensures sound { IfSome (S.files shelf.old) (λ files. IfOk result (λ answer.
        IsTrueMarking question.now (bytes_of files file.now) answer.text.items)) }
    ensures read { ReadsOnce S.files S.faults S.failures (is_read_fault result) shelf.old shelf.new }
{
    match read_moves(alloc, file, shelf) {
        Ok(program) => marking(alloc, &program, question),
        Err(stopped) => Err(stopped),
    }
}

/// Marks the moves of a program, unless one of its cutters is refused.
fn marking(alloc: Global, program: &Program, question: &Question) -> Result<Reply, Stopped>
    requires question { IsQuestion question.now }
    requires valid { All IsMove program.now.moves }
    ensures report { IsReport result (marked question.now program.now) }
    ensures clean { IfOk result (λ answer. answer.status ≡ Status.Clean) }
    ensures sound { IfOk result (λ answer. MarksTruly question.now program.now answer.text.items) }
    ensures memory { is_read_fault result ≡ false }
{
    if let Some(line) = low_cutter(&USUAL, program.moves.as_slice()) {
        return Err(Stopped::Refused(Fault::CutterHeight(line)));
    }
    match marks_text(alloc, program, question) {
        Ok(text) => Ok(Reply {
            text,
            status: Status::Clean,
        }),
        Err(NoMemory) => Err(Stopped::NoMemory),
    }
}

/// The text of a program's marks.
fn marks_text(alloc: Global, program: &Program, question: &Question) -> Result<Vec<u8>, NoMemory>
    requires question { IsQuestion question.now }
    requires valid { All IsMove program.now.moves }
    requires high { first_low point_usual program.now.moves ≡ None }
    ensures text { IfOk result (λ v. v.items ≡ marking_of program.now (marks_for point_usual question.now program.now.moves)) }
    ensures sound { IfOk result (λ v. MarksTruly question.now program.now v.items) }
{
    let marks = marks_of(alloc, &USUAL, program.moves.as_slice(), question)?;
    point_text(alloc, program, &marks)
}
