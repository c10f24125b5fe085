// The laws that the same bytes are judged in one way, and that requests change a desk by commands alone.
ghost use Rattle.sqlite.specs.Held.{state};
ghost use Rattle.adm_http.specs.Bodies.{AnswersBodies};
ghost use Rattle.adm_http.specs.Heads.{JudgedInOneWay};

use sqlite::Alter;

/// The same bytes are judged in one way, save where their first 8,192, or all where there are
/// fewer, end within a target that breaks UTF-8, or hold no head and only one of more than 64
/// fields may still come: these may be refused at once, or more be read. At their end the status is
/// 400 all the same where there are fewer than 8,192, and else to 400 or 431, which are both right.
pub fn judged_in_one_way()
    ensures { JudgedInOneWay }
{}

/// Serving requests changes a desk as at most as many commands do, one after another, each of which
/// some body is: one command, or the rows of an import. That these are the bodies of those requests
/// it does not say.
pub fn bodies_are_commands<S: Alter>()
    ensures { AnswersBodies (state S.Store) }
{}
