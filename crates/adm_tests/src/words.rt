// What no clause says: worked examples, and that clap refuses arguments that lack a value.
use adm_types::Phase;
use adm_words::{Action, WordsFault, action, fault_text};
use std::test::Fail;

#[test]
fn a_register_is_made(rt: HostRuntime) -> Result<(), Fail> {
    let words = ["admissions", "init", "reg.db", "secondary", "2025"];
    match action(rt.alloc(), &words) {
        Ok(
            Action::Init {
                file,
                phase,
                year,
                holidays,
                ..
            },
        ) => {
            assert!(rt; file == "reg.db" && phase == Phase::Secondary);
            assert!(rt; year == 2025);
            assert!(rt; holidays.as_slice().is_empty());
            Ok(())
        }
        _ => Err("a register")?,
    }
}

#[test]
fn holidays_keep_their_order(rt: HostRuntime) -> Result<(), Fail> {
    let words = [
        "admissions",
        "init",
        "f",
        "primary",
        "2022",
        "2022-04-18",
        "2022-04-15",
        "2022-04-18",
    ];
    match action(rt.alloc(), &words) {
        Ok(
            Action::Init {
                phase,
                holidays,
                ..
            },
        ) => {
            assert!(rt; phase == Phase::Primary);
            match holidays.as_slice() {
                [first, second, third] => {
                    assert!(rt; first.number() == 19_100);
                    assert!(rt; second.number() == 19_097);
                    assert!(rt; third.number() == 19_100);
                    Ok(())
                }
                _ => Err("three holidays")?,
            }
        }
        _ => Err("a register")?,
    }
}

#[test]
fn lines_are_answered(rt: HostRuntime) -> Result<(), Fail> {
    match action(rt.alloc(), &["admissions", "do", "a b.db"]) {
        Ok(Action::Do { file }) => {
            assert!(rt; file == "a b.db");
            Ok(())
        }
        _ => Err("lines")?,
    }
}

const YEARS: [(&str, Option<u32>); 9] = [
    ("1999", None),
    ("2000", Some(2000)),
    ("2100", Some(2100)),
    ("2101", None),
    ("+2025", Some(2025)),
    ("02025", Some(2025)),
    ("2025.0", None),
    ("4294969321", None),
    ("", None),
];

#[test]
fn years_are_from_2000_to_2100(rt: HostRuntime) {
    for (text, wanted) in YEARS {
        let words = ["admissions", "init", "f", "secondary", text];
        let year = match action(rt.alloc(), &words) {
            Ok(Action::Init { year, .. }) => Some(year),
            _ => None,
        };
        assert!(rt; year == wanted);
    }
}

const WRONG: [&[&str]; 20] = [
    &[],
    &["admissions"],
    &["admissions", "open", "f"],
    &["admissions", "do"],
    &["admissions", "do", "f", "g"],
    &["admissions", "do", "--count", "f"],
    &["admissions", "init"],
    &["admissions", "init", "f"],
    &["admissions", "init", "f", "secondary"],
    &["admissions", "init", "f", "Secondary", "2025"],
    &["admissions", "init", "f", "2025", "secondary"],
    &["admissions", "import", "f"],
    &["admissions", "letter", "f"],
    &["admissions", "list", "f", "A", "B"],
    &["admissions", "round_report", "f", "1"],
    &["admissions", "--help"],
    &["admissions", "help"],
    &["admissions", "--version"],
    &["admissions", "init", "f", "secondary", "2025", "--help"],
    &["admissions", "init", "f", "secondary", "2025", "--version"],
];

#[test]
fn wrong_words(rt: HostRuntime) {
    for words in WRONG {
        assert!(rt; matches!(action(rt.alloc(), words), Err(WordsFault::Usage(_))));
    }
}

const SERVED: [(&[&str], u16, u32); 7] = [
    (&["admissions", "serve", "f", "8080"], 8080, 1_000_000),
    (&["admissions", "serve", "f", "1", "--count", "1"], 1, 1),
    (
        &["admissions", "serve", "f", "65535", "--count", "1000000"],
        65_535,
        1_000_000,
    ),
    (
        &["admissions", "serve", "--count", "5", "f", "8080"],
        8080,
        5,
    ),
    (&["admissions", "serve", "f", "--count=5", "8080"], 8080, 5),
    (
        &["admissions", "serve", "f", "+8080", "--count", "+05"],
        8080,
        5,
    ),
    (
        &["admissions", "serve", "--count=5", "--", "f", "08080"],
        8080,
        5,
    ),
];

#[test]
fn requests_are_served(rt: HostRuntime) {
    for (words, wanted_port, wanted_count) in SERVED {
        let is_read = match action(rt.alloc(), words) {
            Ok(Action::Serve { file, port, count }) => {
                file == "f" && port == wanted_port && count == wanted_count
            }
            _ => false,
        };
        assert!(rt; is_read);
    }
}

const NOT_SERVED: [&[&str]; 15] = [
    &["admissions", "serve"],
    &["admissions", "serve", "f"],
    &["admissions", "serve", "f", "--count", "5"],
    &["admissions", "serve", "f", "0"],
    &["admissions", "serve", "f", "65536"],
    &["admissions", "serve", "f", "http"],
    &["admissions", "serve", "f", "-1"],
    &["admissions", "serve", "f", "8080", "5"],
    &["admissions", "serve", "f", "8080", "--count"],
    &["admissions", "serve", "f", "8080", "--count", "0"],
    &["admissions", "serve", "f", "8080", "--count", "1000001"],
    &["admissions", "serve", "f", "8080", "--count", "many"],
    &["admissions", "serve", "f", "8080", "--count", "4294967297"],
    &["admissions", "serve", "f", "8080", "--count=5", "--count=5"],
    &["admissions", "serve", "--", "f", "8080", "--count", "5"],
];

#[test]
fn wrong_words_serve_nothing(rt: HostRuntime) {
    for words in NOT_SERVED {
        assert!(rt; matches!(action(rt.alloc(), words), Err(WordsFault::Usage(_))));
    }
}

#[test]
fn bad_dates(rt: HostRuntime) {
    for date in [
        "2025-13-01",
        "2025-1-1",
        "1989-12-31",
        "2111-01-01",
        "2025-02-29",
        "",
        "holiday",
    ] {
        let words = [
            "admissions",
            "init",
            "f",
            "secondary",
            "2025",
            "2025-01-01",
            date,
        ];
        assert!(rt; matches!(action(rt.alloc(), &words), Err(WordsFault::BadDate)));
    }
}

#[test]
fn a_file_and_a_word(rt: HostRuntime) {
    for (name, word) in [
        ("import", "a.csv"),
        ("letter", "9999999"),
        ("list", "A1"),
        ("round-report", "0"),
    ] {
        let words = ["admissions", name, "f", word];
        let read = action(rt.alloc(), &words);
        let is_read = match &read {
            Ok(Action::Import { file, csv }) => name == "import" && *file == "f" && *csv == word,
            Ok(Action::Letter { file, child }) => {
                name == "letter" && *file == "f" && child.get() == 9_999_999
            }
            Ok(Action::List { file, school }) => {
                name == "list" && *file == "f" && school.as_str() == "A1"
            }
            Ok(Action::RoundReport { file, round }) => {
                name == "round-report" && *file == "f" && *round == 0
            }
            _ => false,
        };
        assert!(rt; is_read);
    }
}

#[test]
fn bad_words(rt: HostRuntime) {
    for (name, word) in [
        ("letter", "0"),
        ("letter", "10000000"),
        ("letter", "07"),
        ("list", "a"),
        ("list", ""),
        ("list", "ABCDEFGHI"),
        ("round-report", "4294967296"),
        ("round-report", "+1"),
    ] {
        let words = ["admissions", name, "f", word];
        assert!(rt; matches!(action(rt.alloc(), &words), Err(WordsFault::BadWord)));
    }
}

#[test]
fn faults_are_told(rt: HostRuntime) -> Result<(), Fail> {
    let alloc = rt.alloc();
    assert!(rt; fault_text(alloc, &WordsFault::BadDate)?.as_str() == "fault: BadDate\n");
    assert!(rt; fault_text(alloc, &WordsFault::BadWord)?.as_str() == "fault: BadWord\n");
    assert!(rt; fault_text(alloc, &WordsFault::Memory)?.as_str() == "fault: Memory\n");
    match action(alloc, &["admissions", "open", "f"]) {
        Err(fault) => {
            let text = fault_text(alloc, &fault)?;
            assert!(rt;
                text.as_str()
                    == "error: unrecognized subcommand 'open'\n\nUsage: admissions <COMMAND>\n\nFor more information, try '--help'.\n"
            );
        }
        Ok(_) => Err("a fault")?,
    }
    match action(alloc, &["admissions", "--help"]) {
        Err(fault) => {
            let text = fault_text(alloc, &fault)?;
            assert!(rt;
                text.as_str().starts_with(
                    "A register for coordinated school admissions\n\nUsage: admissions <COMMAND>\n\nCommands:\n",
                )
            );
        }
        Ok(_) => Err("a fault")?,
    }
    Ok(())
}

#[test]
fn the_version_is_told(rt: HostRuntime) -> Result<(), Fail> {
    let alloc = rt.alloc();
    match action(alloc, &["admissions", "--version"]) {
        Err(fault) => {
            assert!(rt; fault_text(alloc, &fault)?.as_str() == "admissions 0.1.0\n");
            Ok(())
        }
        Ok(_) => Err("a fault")?,
    }
}
