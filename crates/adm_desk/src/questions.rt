// The questions that a desk answers: which school a child would get by another list.
ghost use Rattle.adm_desk.specs.Questions.{AnswersQuestion, AnswersWhatIf};

use crate::lines::LineHandler;
use crate::{Desk, LineAnswer, WhatIfAnswer};
use adm_commands::what_if;
use adm_register::Register;
use adm_wire::{WhatIf, read_what_if};
use sqlite::Alter;
use std::alloc::Global;

/// The answer to a question about a register.
fn what_if_answer(alloc: Global, register: &Register, asked: &WhatIf) -> WhatIfAnswer
    ensures { AnswersQuestion register.now asked.now result }
{
    let lots = asked.lots.as_slice();
    let schools = asked.preferences.as_slice();
    match what_if(register, alloc, asked.child, lots, schools) {
        Ok(school) => WhatIfAnswer::School(school),
        Err(why) => WhatIfAnswer::Unanswered(why),
    }
}

impl<S: Alter> Desk<S> {
    /// Reads the bytes as a question, which place a child would have with another list, and answers it. The
    /// desk stays as it is, and so does its file. It takes memory and time as the next round would.
    pub fn answer_question(&self, alloc: Global, bytes: &[u8]) -> LineAnswer
        ensures { AnswersWhatIf self.now bytes.now result }
    {
        match read_what_if(alloc, bytes) {
            Err(fault) => LineAnswer::Faulty(fault),
            Ok(asked) => match self.register() {
                None => LineAnswer::Queried(WhatIfAnswer::Failed),
                Some(register) => LineAnswer::Queried(what_if_answer(alloc, register, &asked)),
            },
        }
    }
}

/// A desk that answers questions.
#[derive(Drop)]
pub(crate) struct QuestionHandler<'d, S: Alter>(pub(crate) &'d Desk<S>);

impl<S: Alter> LineHandler for QuestionHandler<'_, S> {
    ghost use Rattle.sqlite.specs.Held.{Held};
    ghost use Rattle.adm_desk.specs.Questions.{AnswersQuestionLine};
    ghost use Rattle.adm_desk.specs.DeskState.{DeskState};

    ghost View = { DeskState (Held S) };

    ghost view = { λ asked. asked.0.now };

    ghost runs = { AnswersQuestionLine };

    fn answer(&mut self, alloc: Global, line: &[u8]) -> LineAnswer {
        self.0.answer_question(alloc, line)
    }
}
