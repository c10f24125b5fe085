// Texts for people: letters to children, waiting lists of schools, reports of rounds, and for whom lots are drawn.
//! Letters to children, waiting lists of schools, reports of rounds and for whom lots are drawn, as
//! texts. Each line ends with LF.
#![tactic(auto)]

mod fault;
mod letter_lines;
mod letters;
mod lists;
mod pairs;
mod reports;

pub use fault::LetterFault;
pub use letters::letter;
pub use lists::list_text;
pub use pairs::pairs_text;
pub use reports::round_text;
