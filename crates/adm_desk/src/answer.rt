// What a desk answers, and its texts.
ghost use Rattle.std.specs.Prelude.{◌≡◌, ◌++◌, codes, IfOk, string_bytes};
ghost use Rattle.adm_desk.specs.Lines.{school_text, question_fault_text};

use adm_commands::QuestionFault;
use adm_types::{Refusal, Reply, SchoolCode};
use adm_wire::{WireFault, failed_text, fault_text, memory_text, refusal_text, reply_text};
use std::alloc::{AllocError, Global};

/// What a desk answers to a command.
#[derive(Clone, Copy, PartialEq, Eq, Debug)]
pub enum Answer {
    Done(Reply),
    Refused { refusal: Refusal, row: u64 },
    Memory,
    Failed,
}

/// What a desk answers to a line.
#[derive(Clone, Copy, PartialEq, Eq, Debug)]
pub enum LineAnswer {
    Handled(Answer),
    Faulty(WireFault),
    Queried(WhatIfAnswer),
}

/// What a desk answers to a question.
#[derive(Clone, Copy, PartialEq, Eq, Debug)]
pub enum WhatIfAnswer {
    /// The school where the child would be, or none.
    School(Option<SchoolCode>),
    Unanswered(QuestionFault),
    Failed,
}

impl Answer {
    ghost use Rattle.adm_desk.specs.Lines.{answer_text};

    /// The text of the answer.
    pub fn text(&self, alloc: Global) -> Result<String, AllocError>
        ensures { IfOk result (λ s. string_bytes s ≡ answer_text self.now) }
    {
        match self {
            Answer::Done(reply) => reply_text(alloc, reply),
            Answer::Refused { refusal, row } => refusal_text(alloc, *refusal, *row),
            Answer::Memory => String::from_str(alloc, memory_text()),
            Answer::Failed => String::from_str(alloc, failed_text()),
        }
    }
}

impl LineAnswer {
    ghost use Rattle.adm_desk.specs.Lines.{line_text};

    /// The text of the answer.
    pub fn text(&self, alloc: Global) -> Result<String, AllocError>
        ensures { IfOk result (λ s. string_bytes s ≡ line_text self.now) }
    {
        match self {
            LineAnswer::Handled(answer) => answer.text(alloc),
            LineAnswer::Faulty(fault) => fault_text(alloc, *fault),
            LineAnswer::Queried(what_if_answer) => what_if_answer.text(alloc),
        }
    }
}

impl WhatIfAnswer {
    ghost use Rattle.adm_desk.specs.Lines.{what_if_answer_text};

    /// The text of the answer.
    pub fn text(&self, alloc: Global) -> Result<String, AllocError>
        ensures { IfOk result (λ s. string_bytes s ≡ what_if_answer_text self.now) }
    {
        match self {
            WhatIfAnswer::School(school) => school_text(alloc, *school),
            WhatIfAnswer::Unanswered(why) => question_fault_text(alloc, *why),
            WhatIfAnswer::Failed => String::from_str(alloc, failed_text()),
        }
    }
}

fn school_text(alloc: Global, school: Option<SchoolCode>) -> Result<String, AllocError>
    ensures { IfOk result (λ s. string_bytes s ≡ school_text school) }
{
    match school {
        None => String::from_str(alloc, "{\"school\":null}"),
        Some(school) => quoted_school(alloc, school.as_str()),
    }
}

fn quoted_school(alloc: Global, school: &str) -> Result<String, AllocError>
    ensures { IfOk result (λ s. string_bytes s ≡ codes "{\"school\":\"" ++ (school.now ++ codes "\"}")) }
{
    format!(in alloc; "{{\"school\":\"{school}\"}}")
}

fn question_fault_text(alloc: Global, why: QuestionFault) -> Result<String, AllocError>
    ensures { IfOk result (λ s. string_bytes s ≡ question_fault_text why) }
{
    match why {
        QuestionFault::LotCount => refusal_text(alloc, Refusal::LotCount, 0),
        QuestionFault::LotsRepeated => refusal_text(alloc, Refusal::LotsRepeated, 0),
        QuestionFault::UnknownChild => refusal_text(alloc, Refusal::UnknownChild, 0),
        QuestionFault::NotItsSchools => {
            String::from_str(alloc, "{\"name\":\"NotItsSchools\",\"refused\":23}")
        }
        QuestionFault::Memory => String::from_str(alloc, memory_text()),
    }
}
