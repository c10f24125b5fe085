// Lines from a reader, each answered by a line to a writer.
ghost use Rattle.std.specs.Prelude.{ℕ, [], ◌∷◌, ◌++◌, take, IfOk, IfErr, OnOk, OnErr};
ghost use Rattle.std.specs.Io.KnownBytes.{Appends};
ghost use Rattle.adm_wire.specs.Streams.{reader, writer};
ghost use Rattle.adm_desk.specs.Lines.{line_text};
ghost use Rattle.adm_desk.specs.Written.{Answered, Interrupted, EndsAs, last_line, Counts, Takes, Breaks, OfWriter, ReaderFailsBy, WriterFailsBy};

use crate::{Answer, LineAnswer, Run, RunFault, WhatIfAnswer};
use adm_wire::{Input, Output};
use std::alloc::Global;

/// What answers lines.
pub(crate) trait LineHandler {
    ghost use Rattle.std.specs.Prelude.{List, ℕ};
    ghost use Rattle.adm_desk.specs.declared.answer.LineAnswer.{LineAnswer};

    // What answers, as contracts see it.
    ghost View: { Type 0 };

    ghost view: { Self → View };

    // What a line may be answered, and what is there then.
    ghost runs: { View → List ℕ → LineAnswer → View → Type 0 };

    fn answer(&mut self, alloc: Global, line: &[u8]) -> LineAnswer
        ensures { runs (view self.old) line.now result (view self.new) };
}

/// Counts an answer.
fn count(run: &mut Run, answer: &LineAnswer)
    ensures { Counts run.old run.new (answer.now ∷ []) }
{
    let Run {
        done,
        refused,
        failed: _,
    } = *run;
    match answer {
        LineAnswer::Handled(Answer::Done(_)) | LineAnswer::Queried(WhatIfAnswer::School(_)) => {
            run.done = done.saturating_add(1);
        }
        LineAnswer::Handled(Answer::Failed) | LineAnswer::Queried(WhatIfAnswer::Failed) =>
            run.failed = true,
        LineAnswer::Handled(Answer::Refused { .. } | Answer::Memory)
        | LineAnswer::Faulty(_)
        | LineAnswer::Queried(WhatIfAnswer::Unanswered(_)) => {
            run.refused = refused.saturating_add(1);
        }
    }
}

/// Writes an answer as a line.
fn write_answer<W: Output>(
    alloc: Global,
    output: &mut W,
    answer: &LineAnswer,
) -> Result<(), RunFault>
    ensures whole { OnOk result (Appends (W.contents output.old) (W.contents output.new) (line_text answer.now ++ 10 ∷ [])) }
    ensures part { OnErr result ((n : ℕ) × Appends (W.contents output.old) (W.contents output.new) (take n (line_text answer.now ++ 10 ∷ []))) }
    ensures fault { IfErr result OfWriter }
    ensures writer { WriterFailsBy result (W.has_failed output.old) (W.has_failed output.new) }
{
    let Ok(mut text) = answer.text(alloc) else {
        return Err(RunFault::Memory);
    };
    if text.push_str("\n").is_err() {
        return Err(RunFault::Memory);
    }
    match output.put(text.as_bytes()) {
        Ok(()) => Ok(()),
        Err(_) => Err(RunFault::Write),
    }
}

/// Answers a line and writes its answer.
fn run_line<H: LineHandler, W: Output>(
    alloc: Global,
    handler: &mut H,
    output: &mut W,
    run: &mut Run,
    line: &[u8],
) -> Result<(), RunFault>
    ensures answered { OnOk result (Answered H.runs (H.view handler.old) (H.view handler.new) (W.contents output.old) (W.contents output.new) run.old run.new (line.now ∷ [])) }
    ensures interrupted { OnErr result (Interrupted H.runs (H.view handler.old) (H.view handler.new) (W.contents output.old) (W.contents output.new) (line.now ∷ [])) }
    ensures fault { IfErr result OfWriter }
    ensures writer { WriterFailsBy result (W.has_failed output.old) (W.has_failed output.new) }
{
    let answer = handler.answer(alloc, line);
    count(run, &answer);
    write_answer(alloc, output, &answer)
}

/// Takes one byte: at LF the pending line is answered.
fn take_byte<H: LineHandler, W: Output>(
    handler: &mut H,
    output: &mut W,
    run: &mut Run,
    pending: &mut Vec<u8>,
    byte: u8,
) -> Result<(), RunFault>
    ensures taken { OnOk result (Takes H.runs (H.view handler.old) (H.view handler.new) (W.contents output.old) (W.contents output.new) run.old run.new pending.old.items pending.new.items (byte ∷ [])) }
    ensures broken { OnErr result (Breaks H.runs (H.view handler.old) (H.view handler.new) (W.contents output.old) (W.contents output.new) pending.old.items (byte ∷ [])) }
    ensures fault { IfErr result OfWriter }
    ensures writer { WriterFailsBy result (W.has_failed output.old) (W.has_failed output.new) }
{
    if byte == b'\n' {
        let alloc = *pending.allocator();
        run_line(alloc, handler, output, run, pending.as_slice())?;
        pending.clear();
        Ok(())
    } else if pending.push(byte).is_ok() {
        Ok(())
    } else {
        Err(RunFault::Memory)
    }
}

/// Takes bytes, one after another.
fn take_bytes<H: LineHandler, W: Output>(
    handler: &mut H,
    output: &mut W,
    run: &mut Run,
    pending: &mut Vec<u8>,
    bytes: &[u8],
) -> Result<(), RunFault>
    ensures taken { OnOk result (Takes H.runs (H.view handler.old) (H.view handler.new) (W.contents output.old) (W.contents output.new) run.old run.new pending.old.items pending.new.items bytes.now) }
    ensures broken { OnErr result (Breaks H.runs (H.view handler.old) (H.view handler.new) (W.contents output.old) (W.contents output.new) pending.old.items bytes.now) }
    ensures fault { IfErr result OfWriter }
    ensures writer { WriterFailsBy result (W.has_failed output.old) (W.has_failed output.new) }
{
    for byte in bytes {
        take_byte(handler, output, run, pending, *byte)?;
    }
    Ok(())
}

/// Answers the last line, where it has no LF.
fn finish<H: LineHandler, W: Output>(
    alloc: Global,
    handler: &mut H,
    output: &mut W,
    run: Run,
    pending: &[u8],
) -> Result<Run, RunFault>
    ensures answered { IfOk result (λ r. Answered H.runs (H.view handler.old) (H.view handler.new) (W.contents output.old) (W.contents output.new) run r (last_line pending.now)) }
    ensures interrupted { OnErr result (Interrupted H.runs (H.view handler.old) (H.view handler.new) (W.contents output.old) (W.contents output.new) (last_line pending.now)) }
    ensures fault { IfErr result OfWriter }
    ensures writer { WriterFailsBy result (W.has_failed output.old) (W.has_failed output.new) }
{
    let mut run = run;
    if pending.is_empty() {
        return Ok(run);
    }
    run_line(alloc, handler, output, &mut run, pending)?;
    Ok(run)
}

/// Answers the lines that the reader gives, to its end, and writes an answer for each. An error of
/// the reader leaves the lines answered that ended before it. An input that takes more than
/// `u64::MAX` reads is out of memory.
pub(crate) fn run_lines<H: LineHandler, R: Input, W: Output>(
    alloc: Global,
    handler: &mut H,
    input: &mut R,
    output: &mut W,
) -> Result<Run, RunFault>
    ensures ends { EndsAs H.runs (H.view handler.old) (H.view handler.new) (reader R.Input input.old input.new) (writer W.Output output.old output.new) result }

    // The writer has failed since exactly with Write, and the reader exactly with Read.
    ensures writer { WriterFailsBy result (W.has_failed output.old) (W.has_failed output.new) }
    ensures reader { ReaderFailsBy result (R.has_failed input.old) (R.has_failed input.new) }
{
    let mut run = Run {
        done: 0,
        refused: 0,
        failed: false,
    };
    let mut pending = Vec::new(alloc);
    let mut buffer = [0; 4096];
    for _turn in 0..u64::MAX {
        let count = match input.read_some(&mut buffer) {
            Ok(count) => count,
            Err(_) => return Err(RunFault::Read),
        };
        if count == 0 {
            return finish(alloc, handler, output, run, pending.as_slice());
        }
        take_bytes(handler, output, &mut run, &mut pending, &buffer[..count])?;
    }
    Err(RunFault::Memory)
}
