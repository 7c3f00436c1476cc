ghost use Rattle.std.specs.Prelude.{◌≡◌, ◌⊎◌, Some, IfOk};
ghost use Rattle.clverify.specs.Outside.{WritesAnswer};
ghost use Rattle.clverify.specs.Reply.{IsVerdict, IsWhole, refused};
ghost use Rattle.clverify.specs.Settled.{MayEnd, Settles};

use crate::status::Status;
use input_faults::{Fault, Stopped};
use report_text::refusal_text;
use std::alloc::Global;
use vf_io::{Failed, NoMemory, Sink, put_lines};

/// The text of a report, and the status that goes with it.
#[derive(Drop)]
pub(crate) struct Reply {
    pub(crate) text: Vec<u8>,
    pub(crate) status: Status,
}

/// Writes a command's report, or what stopped it: a fault has its line, the other ends are only a status.
pub(crate) fn settle<K: Sink>(alloc: Global, report: Result<Reply, Stopped>, sink: &mut K) -> Status
    requires { IfOk report (λ answer. IsVerdict answer.status) }
    ensures { Settles K.written K.pieces K.faults report result sink.old sink.new }
{
    match report {
        Ok(answer) => write_answer(sink, &answer.text, answer.status),
        Err(Stopped::Refused(fault)) => refuse(alloc, fault, sink),
        Err(Stopped::ReadFault) => Status::ReadFault,
        Err(Stopped::NoMemory) => Status::NoMemory,
    }
}

/// Writes the line of a refusal.
fn refuse<K: Sink>(alloc: Global, fault: Fault, sink: &mut K) -> Status
    ensures answer { WritesAnswer K.written K.pieces K.faults result (Some (refused fault)) sink.old sink.new }
    ensures ends { MayEnd (Status.Refused fault) result }
{
    match refusal_text(alloc, &fault) {
        Ok(text) => write_answer(sink, &text, Status::Refused(fault)),
        Err(NoMemory) => Status::NoMemory,
    }
}

/// Writes a whole text, line by line, and answers the status that goes with it.
pub(crate) fn write_answer<K: Sink>(sink: &mut K, text: &[u8], status: Status) -> Status
    requires { IsWhole status }
    ensures answer { WritesAnswer K.written K.pieces K.faults result (Some (record { text = text.now; status = status }))
        sink.old sink.new }
    ensures ends { (result ≡ status) ⊎ (result ≡ Status.WriteFault) }
{
    match put_lines(sink, text) {
        Ok(()) => status,
        Err(Failed) => Status::WriteFault,
    }
}
