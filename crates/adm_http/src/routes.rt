// The routes: the path of each, what it names, and for a text its media type and how it is made.
ghost use Rattle.std.specs.Prelude.{◌≡◌, IfOk};
ghost use Rattle.adm_types.specs.Fields.{child_named};
ghost use Rattle.adm_http.specs.Routes.{named_by, media_of, text_in, all_routes};
ghost use Rattle.adm_http.specs.Shows.{IsShown};

use crate::request_handler::{ShowResult, given, given_always, given_if_any, given_of_draw};
use crate::responses::Media;
use crate::router::add;
use crate::states::child_text;
use adm_letters::{letter, list_text, pairs_text, round_text};
use adm_register::Register;
use adm_types::{ChildNo, SchoolCode, plain};
use adm_view::{child_entry_text, draw_text, register_text, school_entry_text};
use matchit::Router;
use std::alloc::{AllocError, Global};

/// A route.
#[derive(Clone, Copy)]
pub enum Route {
    Command,
    Import,
    Child,
    Letter,
    Pairs,
    SchoolPairs,
    Waiting,
    Round,
    WhatIf,
    Register,
    Draw,
    RegisterChild,
    RegisterSchool,
}

/// What a body is read as.
#[derive(Clone, Copy)]
pub enum Purpose {
    /// A command, which is run.
    Command,
    /// Rows of comma-separated values, which are imported as one command.
    Import,
    /// A question: which place a child would have with another list. It changes nothing.
    Question,
}

/// A text that can be requested.
#[derive(Clone, Copy)]
pub enum Resource {
    /// A child's place, and where it waits.
    ChildState(ChildNo),
    /// The letter to a child.
    ChildLetter(ChildNo),
    /// The waiting list of a school.
    WaitingList(SchoolCode),
    /// The report of a round.
    RoundReport(u32),
    /// For whom lots are drawn: for the next round, or for a fill at a school.
    PairList(Option<SchoolCode>),
    /// The register as one document, without its lots and imported rows.
    WholeRegister,
    /// A draw with its lots.
    DrawWithLots(u32),
    /// The entry of the register's document for a child.
    ChildEntry(ChildNo),
    /// The entry of the register's document for a school.
    SchoolEntry(SchoolCode),
}

/// What a target names.
#[derive(Clone, Copy)]
pub enum Target {
    /// A body, sent by POST.
    Body(Purpose),
    /// A text, requested by GET.
    Text(Resource),
}

/// A router of the paths.
pub(crate) fn all_routes(alloc: Global) -> Result<Router<Route>, AllocError>
    ensures { IfOk result (λ router. router ≡ all_routes) }
{
    let mut router = Router::new(alloc);
    add(&mut router, "/command", Route::Command)?;
    add(&mut router, "/child/{no}", Route::Child)?;
    add(&mut router, "/child/{no}/letter", Route::Letter)?;
    add(&mut router, "/school/{code}/waiting", Route::Waiting)?;
    add(&mut router, "/round/{no}", Route::Round)?;
    add(&mut router, "/what-if", Route::WhatIf)?;
    add(&mut router, "/pairs", Route::Pairs)?;
    add(&mut router, "/pairs/{code}", Route::SchoolPairs)?;
    add(&mut router, "/import", Route::Import)?;
    add(&mut router, "/register", Route::Register)?;
    add(&mut router, "/draw/{no}", Route::Draw)?;
    add(&mut router, "/register/child/{no}", Route::RegisterChild)?;
    add(
        &mut router,
        "/register/school/{code}",
        Route::RegisterSchool,
    )?;
    Ok(router)
}

/// What the part of a route names, where it has the form that the route requires.
pub(crate) fn named(route: Route, part: &str) -> Option<Target>
    ensures { result ≡ named_by (route, part.now) }
{
    match route {
        Route::Command => Some(Target::Body(Purpose::Command)),
        Route::Import => Some(Target::Body(Purpose::Import)),
        Route::WhatIf => Some(Target::Body(Purpose::Question)),
        Route::Child => Some(Target::Text(Resource::ChildState(child_number(part)?))),
        Route::Letter => Some(Target::Text(Resource::ChildLetter(child_number(part)?))),
        Route::Pairs => Some(Target::Text(Resource::PairList(None))),
        Route::SchoolPairs => Some(Target::Text(Resource::PairList(Some(SchoolCode::new(part)?)))),
        Route::Waiting => Some(Target::Text(Resource::WaitingList(SchoolCode::new(part)?))),
        Route::Round => Some(Target::Text(Resource::RoundReport(plain(part)?))),
        Route::Register => Some(Target::Text(Resource::WholeRegister)),
        Route::Draw => Some(Target::Text(Resource::DrawWithLots(plain(part)?))),
        Route::RegisterChild => Some(Target::Text(Resource::ChildEntry(child_number(part)?))),
        Route::RegisterSchool => Some(Target::Text(Resource::SchoolEntry(SchoolCode::new(part)?))),
    }
}

/// The media type of a text.
pub(crate) fn media(resource: Resource) -> Media
    ensures { result ≡ media_of resource }
{
    match resource {
        Resource::ChildState(_)
        | Resource::WholeRegister
        | Resource::DrawWithLots(_)
        | Resource::ChildEntry(_)
        | Resource::SchoolEntry(_) => Media::Json,
        Resource::ChildLetter(_)
        | Resource::WaitingList(_)
        | Resource::RoundReport(_)
        | Resource::PairList(_) => Media::PlainText,
    }
}

/// The requested text, if the register has such a child, school, round or draw.
#[tactic(auto, using(crate::proofs::ShowLemmas::given_shown, crate::proofs::ShowLemmas::always_shown, crate::proofs::ShowLemmas::draw_shown, crate::proofs::ShowLemmas::entry_shown))]
pub(crate) fn show(alloc: Global, register: &Register, resource: &Resource) -> ShowResult
    ensures { IsShown (text_in register.now resource.now) result }
{
    match resource {
        Resource::ChildState(child) => given(child_text(alloc, register, *child)),
        Resource::ChildLetter(child) => given(letter(alloc, register, *child)),
        Resource::WaitingList(school) => given(list_text(alloc, register, *school)),
        Resource::RoundReport(round) => given(round_text(alloc, register, *round)),
        Resource::PairList(school) => given(pairs_text(alloc, register, *school)),
        Resource::WholeRegister => given_always(register_text(alloc, register)),
        Resource::DrawWithLots(number) => given_of_draw(draw_text(alloc, register, *number)),
        Resource::ChildEntry(child) => given_if_any(child_entry_text(alloc, register, *child)),
        Resource::SchoolEntry(school) => given_if_any(school_entry_text(alloc, register, *school)),
    }
}

// The number of a child that the text writes as a plain number.
fn child_number(text: &str) -> Option<ChildNo>
    ensures { result ≡ child_named text.now }
{
    ChildNo::new(plain(text)?)
}
