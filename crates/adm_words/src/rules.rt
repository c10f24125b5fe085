// The arguments of the command line: the rule by which each is read, and its line in the help.
ghost use Rattle.clap.specs.declared.builder.value_parser.ValueParser.{ValueParser};
ghost use Rattle.adm_words.specs.Building.{IsArg};
ghost use Rattle.adm_words.specs.Program.{IsPhases, required_rule, file_rule, phase_rule, holiday_rule, large_rule, year_rule, port_rule, count_rule, school_rule, draw_rule};

use clap::{Arg, ArgAction, value_parser};
use std::alloc::Global;

static PHASES: [&str; 2] = ["primary", "secondary"];

/// A required argument: its id, and its name and its line in the help.
#[tactic(auto, unfolding(crate::specs::Building::IsArg))]
pub(crate) fn required<'a>(alloc: Global, id: &'a str, name: &'a str, help: &'a str) -> Arg<'a>
    ensures { IsArg (required_rule id.now) result }
{
    Arg::new(alloc, id)
        .value_name(name)
        .help(help)
        .required(true)
        .action(ArgAction::Set)
}

pub(crate) fn file<'a>(alloc: Global, help: &'a str) -> Arg<'a>
    ensures { IsArg file_rule result }
{
    required(alloc, "file", "FILE", help)
}

#[tactic(auto, unfolding(crate::specs::Building::IsArg))]
pub(crate) fn phase<'a>(alloc: Global) -> Arg<'a>
    ensures { (phases : ValueParser) × IsPhases phases × IsArg (phase_rule phases) result }
{
    required(alloc, "phase", "PHASE", "The phase of education").value_parser(PHASES.as_slice())
}

#[tactic(auto, unfolding(crate::specs::Building::IsArg))]
pub(crate) fn year<'a>(alloc: Global) -> Arg<'a>
    ensures { IsArg year_rule result }
{
    required(
        alloc,
        "year",
        "YEAR",
        "The year of entry, from 2000 to 2100",
    )
    .value_parser(value_parser!(u32).range(2000..=2100))
}

#[tactic(auto, unfolding(crate::specs::Building::IsArg))]
pub(crate) fn port<'a>(alloc: Global) -> Arg<'a>
    ensures { IsArg port_rule result }
{
    let port = required(alloc, "port", "PORT", "The port, from 1 to 65535");
    port.value_parser(value_parser!(u32).range(1..=65_535))
}

#[tactic(auto, unfolding(crate::specs::Building::IsArg))]
pub(crate) fn count<'a>(alloc: Global) -> Arg<'a>
    ensures { IsArg count_rule result }
{
    Arg::new(alloc, "count")
        .long("count")
        .value_name("N")
        .help("How many connections to serve, from 1 to 1000000")
        .action(ArgAction::Set)
        .value_parser(value_parser!(u32).range(1..=1_000_000))
}

#[tactic(auto, unfolding(crate::specs::Building::IsArg))]
pub(crate) fn school<'a>(alloc: Global) -> Arg<'a>
    ensures { IsArg school_rule result }
{
    Arg::new(alloc, "school")
        .value_name("SCHOOL")
        .help("The code of the school of a fill; the next round if left out")
        .action(ArgAction::Set)
}

#[tactic(auto, unfolding(crate::specs::Building::IsArg))]
pub(crate) fn draw<'a>(alloc: Global) -> Arg<'a>
    ensures { IsArg draw_rule result }
{
    Arg::new(alloc, "draw")
        .long("draw")
        .value_name("N")
        .help("The number of a draw, which is printed with its lots")
        .action(ArgAction::Set)
}

#[tactic(auto, unfolding(crate::specs::Building::IsArg))]
pub(crate) fn holiday<'a>(alloc: Global) -> Arg<'a>
    ensures { IsArg holiday_rule result }
{
    Arg::new(alloc, "holiday")
        .value_name("HOLIDAY")
        .help("A day that is no working day, YYYY-MM-DD")
        .action(ArgAction::Append)
        .num_args(0..)
}

#[tactic(auto, unfolding(crate::specs::Building::IsArg))]
pub(crate) fn large<'a>(alloc: Global) -> Arg<'a>
    ensures { IsArg large_rule result }
{
    Arg::new(alloc, "large")
        .long("large")
        .help("For up to 40000 children and 1000 schools, not 2000 and 200")
        .action(ArgAction::SetTrue)
}
