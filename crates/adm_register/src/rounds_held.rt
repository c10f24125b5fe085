// The rounds that were held, by their numbers.
ghost use Rattle.std.specs.Prelude.{◌≡◌, find, nat_eq, option_copied};
ghost use Rattle.std.specs.FinMap as rows;
ghost use Rattle.std.specs.Map.{values_of};
ghost use Rattle.adm_register.specs.Rows.{round_of};

use crate::tables::Tables;
use adm_table::{Piece, Shared};
use adm_types::Draw;

impl Tables {
    /// The draw of the round of the number, from 1. It takes no memory; what it costs grows with
    /// the draws.
    pub(crate) fn round(&self, number: u32) -> Option<&Draw>
        ensures { option_copied result ≡ round_of self.now number }
    {
        if number == 0 {
            return None;
        }
        self.first_of_round(number)
    }

    /// The first draw that has this number as its round's.
    fn first_of_round(&self, number: u32) -> Option<&Draw>
        ensures { option_copied result ≡ find (λ draw. nat_eq draw.round number) (rows.values self.now.draws) }
    {
        for piece in self.course.draws.pieces() {
            if let Some(draw) = round_in(piece, number) {
                return Some(draw);
            }
        }
        None
    }
}

/// The first draw of a piece that has this number as its round's.
fn round_in(piece: &Piece<u32, Shared<Draw>>, number: u32) -> Option<&Draw>
    ensures { option_copied result ≡ find (λ draw. nat_eq draw.round number) (values_of piece.now.rows.value.entries) }
{
    match shared_round_in(piece, number) {
        Some(draw) => Some(draw.as_ref()),
        None => None,
    }
}

fn shared_round_in(piece: &Piece<u32, Shared<Draw>>, number: u32) -> Option<&Shared<Draw>>
    ensures { option_copied result ≡ find (λ draw. nat_eq draw.round number) (values_of piece.now.rows.value.entries) }
{
    piece.rows().values().find(|draw| is_of_round(draw, number))
}

fn is_of_round(draw: &Shared<Draw>, number: u32) -> bool
    ensures { result ≡ nat_eq draw.now.round number }
{
    draw.as_ref().round == number
}
