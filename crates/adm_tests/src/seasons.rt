// The days of a season.
use adm_types::{Day, Phase, Season, Seq};
use std::alloc::{AllocError, Global};
use std::test::Fail;

fn days(alloc: Global, texts: &[&str]) -> Result<Vec<Day>, AllocError> {
    let mut days = Vec::new(alloc);
    for text in texts {
        if let Some(day) = Day::parse(text) {
            days.push(day)?;
        }
    }
    Ok(days)
}

#[test]
fn secondary_2025(rt: HostRuntime) -> Result<(), Fail> {
    // 1 March 2025 is a Saturday.
    let season = Season::new(rt.alloc(), Phase::Secondary, 2025, &[])?;
    assert_eq!(rt; Some(season.closing()), Day::parse("2024-10-31"));
    assert_eq!(rt; Some(season.offer_day()), Day::parse("2025-03-03"));
    assert_eq!(rt; Some(season.lists_end()), Day::parse("2025-12-31"));
    Ok(())
}

#[test]
fn primary_2022_at_easter(rt: HostRuntime) -> Result<(), Fail> {
    // 16 April 2022 is a Saturday between Good Friday and Easter Monday.
    let holidays = days(rt.alloc(), &["2022-04-18", "2022-04-15"])?;
    let season = Season::new(rt.alloc(), Phase::Primary, 2022, holidays.as_slice())?;
    assert_eq!(rt; Some(season.closing()), Day::parse("2022-01-15"));
    assert_eq!(rt; Some(season.offer_day()), Day::parse("2022-04-19"));
    assert_eq!(rt; season.holidays().len(), 2);
    Ok(())
}

#[test]
fn secondary_of_a_leap_year(rt: HostRuntime) -> Result<(), Fail> {
    // 1 March 2024 is a Friday, and the day after 29 February.
    let season = Season::new(rt.alloc(), Phase::Secondary, 2024, &[])?;
    assert_eq!(rt; Some(season.offer_day()), Day::from_number(19783));
    let leap_day = Day::from_number(19782).ok_or("a day")?;
    assert_eq!(rt; leap_day.text().as_str(), "2024-02-29");
    Ok(())
}

#[test]
fn a_list_gives_its_items_back(rt: HostRuntime) -> Result<(), Fail> {
    let list = Seq::from_vec(days(rt.alloc(), &["2025-03-03"])?);
    assert_eq!(rt; list.len(), 1);
    assert_eq!(rt; list.clone()?.into_vec().len(), 1);
    assert_eq!(rt; Seq::<Day>::new(rt.alloc()).len(), 0);
    Ok(())
}
