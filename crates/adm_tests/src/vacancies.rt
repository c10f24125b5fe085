// The places that a school has left.
use adm_register::Register;
use adm_types::{Phase, SchoolCode, Season};
use std::test::Fail;

#[test]
fn an_unknown_school_has_no_vacancies(rt: HostRuntime) -> Result<(), Fail> {
    let season = Season::new(rt.alloc(), Phase::Secondary, 2025, &[])?;
    let unknown = SchoolCode::new("Z").ok_or("a code")?;
    assert_eq!(rt; Register::new(season).vacancies(unknown), None);
    Ok(())
}
