// The result of a command: it is done, or refused.
ghost use Rattle.std.specs.Prelude.{◌≡◌, Ok, Err};
ghost use Rattle.adm_types.specs.declared.commands.Reply.TheVariants.{Done};

use adm_register::Difference;
use adm_types::{Refusal, Reply};

/// Why a command is refused.
#[derive(Clone, Copy, PartialEq, Eq, Debug)]
pub struct RowRefusal {
    pub refusal: Refusal,
    /// The row of an import that is refused, from 1; 0 for a command without rows.
    pub row: u64,
}

/// What a command changes and its reply, or why it is refused.
pub(crate) type CommandResult = Result<(Difference, Reply), RowRefusal>;

/// A change that is answered by Done.
pub(crate) fn done(change: Difference) -> CommandResult
    ensures { result ≡ Ok (change, Done) }
{
    Ok((change, Reply::Done))
}

/// A refusal of a command without rows.
pub(crate) fn refused(refusal: Refusal) -> CommandResult
    ensures { result ≡ Err (record { refusal = refusal; row = 0 }) }
{
    Err(RowRefusal { refusal, row: 0 })
}
