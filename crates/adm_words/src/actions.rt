// What the arguments may request.
use adm_types::{ChildNo, Day, Phase, SchoolCode, Seq, Size};

/// The action that the arguments name.
#[derive(Drop)]
pub enum Action<'a> {
    /// Make the register of a season in this file: its phase, its entry year from 2000 to 2100,
    /// its holidays as they were handed in, and its size.
    Init {
        file: &'a str,
        phase: Phase,
        year: u32,
        holidays: Seq<Day>,
        size: Size,
    },
    /// Answer the lines of the standard input over the register in this file.
    Do {
        file: &'a str,
    },
    /// Answer the questions of the standard input, what a child would be allotted by another list,
    /// over the register in this file. Nothing is changed.
    WhatIf {
        file: &'a str,
    },
    /// Import the rows of a CSV file into the register in this file.
    Import {
        file: &'a str,
        csv: &'a str,
    },
    /// Answer requests over HTTP on this port of 127.0.0.1, from 1 to 65535, over the register in
    /// this file, until this many connections were served, from 1 to 1,000,000.
    Serve {
        file: &'a str,
        port: u16,
        count: u32,
    },
    /// Print the letter of a child.
    Letter {
        file: &'a str,
        child: ChildNo,
    },
    /// Print the waiting list of a school.
    List {
        file: &'a str,
        school: SchoolCode,
    },
    /// Print the report of a round, by its number.
    RoundReport {
        file: &'a str,
        round: u32,
    },
    /// Print for whom lots are drawn: for the next round, or for a fill at the school.
    Pairs {
        file: &'a str,
        school: Option<SchoolCode>,
    },
    /// Print the register as JSON, or the draw of this number with its lots.
    Show {
        file: &'a str,
        draw: Option<u32>,
    },
}
