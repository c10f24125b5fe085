// Tests of what no clause says and no command of the program shows.
// The days of a season, a list's items, places at a school that is not there, the ranks of worked
// children, worked problems of the matching, rows and streams in pieces or interrupted, texts of
// answers, and arguments read.
#![tactic(auto)]

#[cfg(test)]
mod faults;
#[cfg(test)]
mod pieces;
#[cfg(test)]
mod problems;
#[cfg(test)]
mod ranks;
#[cfg(test)]
mod rounds;
#[cfg(test)]
mod seasons;
#[cfg(test)]
mod shows;
#[cfg(test)]
mod streams;
#[cfg(test)]
mod texts;
#[cfg(test)]
mod vacancies;
#[cfg(test)]
mod what_ifs;
#[cfg(test)]
mod words;
