// What `offers` gives in each family of problems, and what a child would have by each list: counts and checksums of blocks.
use crate::drawn::{Numbers, opposed_table, some_table};
use crate::posed::{Names, given_by, make_names, number_of, pose};
use crate::scan::scan;
use crate::small::{BLOCK, CHOICES, table_of};
use crate::tables::{Given, Table, mixed, number_at, placed};
use adm_match::{BadProblem, Problem, offers, what_if};
use adm_types::SchoolCode;
use std::alloc::{AllocError, Global};
use std::io;

/// How many blocks of drawn problems there are, and how many problems each has.
const DRAWN: u32 = 4;

const DRAWN_BLOCK: u32 = 500;

/// What the problems of a block are given.
#[derive(Drop)]
struct Outcomes {
    problems: u64,
    placed: u64,
    proposals: u128,
    /// How many of them a scan gives otherwise.
    otherwise: u64,
    checksum: u64,
}

fn no_outcomes() -> Outcomes {
    Outcomes {
        problems: 0,
        placed: 0,
        proposals: 0,
        otherwise: 0,
        checksum: 0,
    }
}

impl Outcomes {
    fn count(&mut self, given: Given, proposals: u128) {
        self.problems = self.problems.wrapping_add(1);
        self.placed = self.placed.wrapping_add(placed(given));
        self.proposals = self.proposals.wrapping_add(proposals);
        self.checksum = mixed(self.checksum, number_at(given));
    }

    /// Counts a table that a scan gives otherwise.
    fn compare(&mut self, table: &Table, given: Given, proposals: u128) {
        let scanned = scan(table);
        if scanned.given != given || scanned.proposals != proposals {
            self.otherwise = self.otherwise.wrapping_add(1);
        }
    }

    /// Allots a table, and hands out its problem.
    fn allot(
        &mut self,
        alloc: Global,
        names: &Names,
        table: &Table,
    ) -> Result<Problem, BadProblem> {
        let problem = pose(alloc, names, table)?;
        let offers = offers(alloc, &problem)?;
        let given = given_by(names, &offers);
        self.count(given, offers.proposals());
        self.compare(table, given, offers.proposals());
        Ok(problem)
    }

    fn print(&self, rt: &HostRuntime, kind: &str, block: u32) -> io::Result<()> {
        let Outcomes {
            problems,
            placed,
            proposals,
            otherwise,
            checksum,
        } = self;
        if *otherwise != 0 {
            println!(rt; "{kind} {block}: {otherwise} are given otherwise by a scan")?;
        }
        println!(rt;
            "{kind} {block}: problems {problems}, placed {placed}, proposals {proposals}, checksum {checksum}"
        )
    }
}

/// What children would have by other lists.
#[derive(Drop)]
struct Answers {
    lists: u64,
    refused: u64,
    checksum: u64,
}

impl Answers {
    /// Counts what the child would have; 5 is a list that it may not hand in.
    fn count(&mut self, school: Option<u32>) {
        match school {
            Some(number) => {
                self.lists = self.lists.wrapping_add(1);
                self.checksum = mixed(self.checksum, u64::from(number));
            }
            None => {
                self.refused = self.refused.wrapping_add(1);
                self.checksum = mixed(self.checksum, 5);
            }
        }
    }

    /// Asks what each of three children would have by each list.
    fn ask(&mut self, alloc: Global, names: &Names, lists: &[Vec<SchoolCode>], problem: &Problem) {
        for index in 0..3 {
            for list in lists {
                match what_if(alloc, problem, names.children[index], list) {
                    Ok(school) => self.count(Some(number_of(names, school))),
                    Err(_) => self.count(None),
                }
            }
        }
    }

    fn print(&self, rt: &HostRuntime, kind: &str, block: u32) -> io::Result<()> {
        let Answers {
            lists,
            refused,
            checksum,
        } = self;
        println!(rt; "{kind} {block}, other lists: {lists}, refused {refused}, checksum {checksum}")
    }
}

/// The lists of the two schools of a small problem.
fn lists_of(alloc: Global, names: &Names) -> Result<Vec<Vec<SchoolCode>>, AllocError> {
    let [first, second, _, _] = names.codes;
    let none = Vec::new(alloc);
    let one = vec![in alloc; first]?;
    let other = vec![in alloc; second]?;
    let both = vec![in alloc; first, second]?;
    let turned = vec![in alloc; second, first]?;
    Ok(vec![in alloc; none, one, other, both, turned]?)
}

/// Every small problem, and every list of every child.
fn small(rt: &HostRuntime, names: &Names) -> io::Result<()> {
    let alloc = rt.alloc();
    let lists = lists_of(alloc, names)?;
    for block in 0..CHOICES {
        let mut outcomes = no_outcomes();
        let mut answers = Answers {
            lists: 0,
            refused: 0,
            checksum: 0,
        };
        for number in 0..BLOCK {
            let table = table_of(block.wrapping_mul(BLOCK).wrapping_add(number));
            match outcomes.allot(alloc, names, &table) {
                Ok(problem) => answers.ask(alloc, names, &lists, &problem),
                Err(_) => println!(rt; "small {block}: problem {number} is refused")?,
            }
        }
        outcomes.print(rt, "small", block)?;
        answers.print(rt, "small", block)?;
    }
    Ok(())
}

/// The next problem of up to five entrants and four schools.
fn next_table(numbers: &mut Numbers, opposed: bool) -> Table {
    let entrants = numbers.below(5).wrapping_add(1);
    if opposed {
        opposed_table(numbers, entrants)
    } else {
        some_table(numbers, entrants)
    }
}

/// Drawn problems: with schools that want children otherwise than these want schools, so that several
/// allocations are stable, or with any rankings.
fn drawn(rt: &HostRuntime, names: &Names, kind: &str, opposed: bool) -> io::Result<()> {
    let alloc = rt.alloc();
    let mut numbers = Numbers::new(11);
    for block in 0..DRAWN {
        let mut outcomes = no_outcomes();
        for number in 0..DRAWN_BLOCK {
            let table = next_table(&mut numbers, opposed);
            if outcomes.allot(alloc, names, &table).is_err() {
                println!(rt; "{kind} {block}: problem {number} is refused")?;
            }
        }
        outcomes.print(rt, kind, block)?;
    }
    Ok(())
}

/// Goes through all families, and prints their blocks.
pub fn run(rt: &HostRuntime) -> io::Result<()> {
    let Some(names) = make_names() else {
        return Ok(());
    };
    small(rt, &names)?;
    drawn(rt, &names, "drawn", false)?;
    drawn(rt, &names, "opposed", true)
}
