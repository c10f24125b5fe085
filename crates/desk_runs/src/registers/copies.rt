// Commands copied: handling a command consumes it, and a step may be done more than once.
use adm_types::Command;
use std::alloc::AllocError;

/// A copy of the command.
pub(crate) fn copy_of(command: &Command) -> Result<Command, AllocError> {
    Ok(match command {
        Command::AddSchool(school) => Command::AddSchool(school.clone()?),
        Command::RaisePan { school, pan } => Command::RaisePan {
            school: *school,
            pan: *pan,
        },
        Command::AddChild(child) => Command::AddChild(child.clone()?),
        Command::Amend(child) => Command::Amend(child.clone()?),
        Command::NamePlan { child, school } => Command::NamePlan {
            child: *child,
            school: *school,
        },
        Command::Apply(application) => Command::Apply(application.clone()?),
        Command::Round { draw, day, lots } => Command::Round {
            draw: *draw,
            day: *day,
            lots: lots.clone()?,
        },
        Command::Fill {
            draw,
            school,
            day,
            lots,
        } => Command::Fill {
            draw: *draw,
            school: *school,
            day: *day,
            lots: lots.clone()?,
        },
        Command::Import(rows) => Command::Import(rows.clone()?),
        Command::Accept { child, school } => Command::Accept {
            child: *child,
            school: *school,
        },
        Command::Decline { child, school } => Command::Decline {
            child: *child,
            school: *school,
        },
        Command::Remind { child, school, day } => Command::Remind {
            child: *child,
            school: *school,
            day: *day,
        },
        Command::Lapse { child, school, day } => Command::Lapse {
            child: *child,
            school: *school,
            day: *day,
        },
        Command::LeaveList { child, school } => Command::LeaveList {
            child: *child,
            school: *school,
        },
    })
}
