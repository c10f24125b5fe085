// Draws gathered from the rows of the three tables.
ghost use Rattle.std.specs.Prelude.{◌≡◌, ◌≤◌, [], length, List, map, Some, None, IfOk, IfSome, IfNone};
ghost use Rattle.std.specs.List.{prefix_len};
ghost use Rattle.adm_draws.specs.Draws.{AreDrawRowsOf, AreByNumber};
ghost use Rattle.adm_draws.specs.Grouped.{is_offer_of, is_lot_of, front, later, draw_of, draws_after};

use crate::order::in_order;
use adm_types::{Draw, DrawRow, Lot, LotRow, OfferRow, Outcome, Seq};
use std::alloc::{AllocError, Global};

/// The draws that have these rows, in order; `None` where no draws in order have them. The rows
/// come in whatever order. Time grows with the rows, times their logarithm, and memory with the
/// rows.
pub fn draws_of(
    alloc: Global,
    draw_rows: Vec<DrawRow>,
    offer_rows: Vec<OfferRow>,
    lot_rows: Vec<LotRow>,
) -> Result<Option<Vec<Draw>>, AllocError>
    ensures made { IfOk result (λ made. IfSome made (λ draws. AreDrawRowsOf draw_rows.items offer_rows.items lot_rows.items draws.items × AreByNumber draws.items)) }
    ensures only { IfOk result (λ made. IfSome made (λ draws. (list : List Draw) → AreDrawRowsOf draw_rows.items offer_rows.items lot_rows.items list → AreByNumber list → list ≡ draws.items)) }
    ensures none { IfOk result (λ made. IfNone made ((list : List Draw) → AreDrawRowsOf draw_rows.items offer_rows.items lot_rows.items list → AreByNumber list → ⊥)) }
{
    let Some(heads) = in_order(draw_rows) else {
        return Ok(None);
    };
    let Some(offers) = in_order(offer_rows) else {
        return Ok(None);
    };
    let Some(lots) = in_order(lot_rows) else {
        return Ok(None);
    };
    gathered(alloc, &heads, &offers, &lots)
}

/// The draws of rows in order; `None` where rows remain.
fn gathered(
    alloc: Global,
    heads: &[DrawRow],
    offers: &[OfferRow],
    lots: &[LotRow],
) -> Result<Option<Vec<Draw>>, AllocError>
    ensures made { IfOk result (λ made. IfSome made (λ draws. draws_after [] heads.now offers.now lots.now ≡ Some draws.items)) }
    ensures none { IfOk result (λ made. IfNone made (draws_after [] heads.now offers.now lots.now ≡ None)) }
{
    let mut draws = Vec::new(alloc);
    let mut offers = offers;
    let mut lots = lots;
    for head in heads {
        let (own_offers, later_offers) = split_offers(offers, head.draw);
        let (own_lots, later_lots) = split_lots(lots, head.draw);
        draws.push(draw_of(alloc, head, own_offers, own_lots)?)?;
        offers = later_offers;
        lots = later_lots;
    }
    if offers.is_empty() && lots.is_empty() {
        Ok(Some(draws))
    } else {
        Ok(None)
    }
}

/// The rows of this draw that are in front, and those behind them.
fn split_offers(rows: &[OfferRow], number: u32) -> (&[OfferRow], &[OfferRow])
    ensures front { result.0.now ≡ front (is_offer_of number) rows.now }
    ensures later { result.1.now ≡ later (is_offer_of number) rows.now }
{
    rows.split_at(count_offers(rows, number))
}

/// How many rows of this draw are in front.
fn count_offers(rows: &[OfferRow], number: u32) -> usize
    ensures value { result ≡ prefix_len (is_offer_of number) rows.now }
    ensures room { result ≤ length rows.now }
{
    rows.iter().take_while(|row| row.draw == number).count()
}

/// The rows of this draw that are in front, and those behind them.
fn split_lots(rows: &[LotRow], number: u32) -> (&[LotRow], &[LotRow])
    ensures front { result.0.now ≡ front (is_lot_of number) rows.now }
    ensures later { result.1.now ≡ later (is_lot_of number) rows.now }
{
    rows.split_at(count_lots(rows, number))
}

/// How many rows of this draw are in front.
fn count_lots(rows: &[LotRow], number: u32) -> usize
    ensures value { result ≡ prefix_len (is_lot_of number) rows.now }
    ensures room { result ≤ length rows.now }
{
    rows.iter().take_while(|row| row.draw == number).count()
}

/// The draw that has these rows.
fn draw_of(
    alloc: Global,
    head: &DrawRow,
    offers: &[OfferRow],
    lots: &[LotRow],
) -> Result<Draw, AllocError>
    ensures { IfOk result (λ draw. draw ≡ draw_of head.now offers.now lots.now) }
{
    Ok(Draw {
        number: head.draw,
        round: head.round,
        school: head.school,
        day: head.day,
        outcomes: Seq::from_vec(outcomes_in(alloc, offers)?),
        lots: Seq::from_vec(lots_in(alloc, lots)?),
    })
}

/// The outcomes in these rows.
fn outcomes_in(alloc: Global, rows: &[OfferRow]) -> Result<Vec<Outcome>, AllocError>
    ensures { IfOk result (λ outcomes. outcomes.items ≡ map (λ row. row.outcome) rows.now) }
{
    rows.iter().map(|row| row.outcome).collect(alloc)
}

/// The lots in these rows.
fn lots_in(alloc: Global, rows: &[LotRow]) -> Result<Vec<Lot>, AllocError>
    ensures { IfOk result (λ lots. lots.items ≡ map (λ row. row.lot) rows.now) }
{
    rows.iter().map(|row| row.lot).collect(alloc)
}
