// The register that an open finds.
use adm_register::Register;
use adm_rows::OpenFault;

/// Why a register was not found.
#[derive(Clone, Copy, Debug)]
pub(crate) enum NotFound {
    NoDatabase,
    Refused(OpenFault),
}

/// The register that an open finds, of what came of the database, if it was opened.
pub(crate) fn found(came: Option<Result<Register, OpenFault>>) -> Result<Register, NotFound> {
    match came {
        None => Err(NotFound::NoDatabase),
        Some(Ok(register)) => Ok(register),
        Some(Err(fault)) => Err(NotFound::Refused(fault)),
    }
}
