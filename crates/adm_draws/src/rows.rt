// The rows of draws, for the three tables.
ghost use Rattle.std.specs.Prelude.{◌≡◌, ◌++◌, map, IfOk};
ghost use Rattle.std.specs.List.{flat_map};
ghost use Rattle.adm_draws.specs.Draws.{row_of, offer_row_of, offer_rows_of, lot_row_of, lot_rows_of};

use adm_table::Shared;
use adm_types::{Draw, DrawRow, Lot, LotRow, OfferRow, Outcome};
use std::alloc::{AllocError, Global};

/// The draws without their outcomes and lots, in the order of the draws. Memory and time grow
/// with the draws.
pub fn draw_rows(alloc: Global, draws: &[Shared<Draw>]) -> Result<Vec<DrawRow>, AllocError>
    ensures { IfOk result (λ rows. rows.items ≡ map row_of draws.now) }
{
    draws.iter().map(|draw| row_of(draw)).collect(alloc)
}

/// The outcomes of the draws, in the order of the draws. Memory and time grow with the outcomes
/// and with the draws.
pub fn offer_rows(alloc: Global, draws: &[Shared<Draw>]) -> Result<Vec<OfferRow>, AllocError>
    ensures { IfOk result (λ rows. rows.items ≡ flat_map offer_rows_of draws.now) }
{
    let mut rows = Vec::new(alloc);
    for draw in draws {
        let draw = draw.as_ref();
        push_offers(&mut rows, draw.number, draw.outcomes.as_slice())?;
    }
    Ok(rows)
}

/// The lots of the draws, in the order of the draws. Memory and time grow with the lots and with
/// the draws.
pub fn lot_rows(alloc: Global, draws: &[Shared<Draw>]) -> Result<Vec<LotRow>, AllocError>
    ensures { IfOk result (λ rows. rows.items ≡ flat_map lot_rows_of draws.now) }
{
    let mut rows = Vec::new(alloc);
    for draw in draws {
        let draw = draw.as_ref();
        push_lots(&mut rows, draw.number, draw.lots.as_slice())?;
    }
    Ok(rows)
}

/// A draw without its outcomes and lots.
fn row_of(draw: &Shared<Draw>) -> DrawRow
    ensures { result ≡ row_of draw.now }
{
    let draw = draw.as_ref();
    DrawRow {
        draw: draw.number,
        round: draw.round,
        school: draw.school,
        day: draw.day,
    }
}

/// Adds outcomes of the draw of this number.
fn push_offers(
    rows: &mut Vec<OfferRow>,
    number: u32,
    outcomes: &[Outcome],
) -> Result<(), AllocError>
    ensures { IfOk result (λ _. rows.new.items ≡ rows.old.items ++ map (offer_row_of number) outcomes.now) }
{
    for outcome in outcomes {
        rows.push(OfferRow {
            draw: number,
            outcome: *outcome,
        })?;
    }
    Ok(())
}

/// Adds lots of the draw of this number.
fn push_lots(rows: &mut Vec<LotRow>, number: u32, lots: &[Lot]) -> Result<(), AllocError>
    ensures { IfOk result (λ _. rows.new.items ≡ rows.old.items ++ map (lot_row_of number) lots.now) }
{
    for lot in lots {
        rows.push(LotRow {
            draw: number,
            lot: *lot,
        })?;
    }
    Ok(())
}
