// What the help of the program and of each subcommand prints after its usage: examples, and the exit statuses.
//
// Each text is here as it is printed. `docs/admissions.1` is made of what is printed (`tools/manual`), and `cases/help` runs the
// examples.

/// The text of a subcommand, the exit statuses of every subcommand, and its further ones.
macro_rules! with_statuses {
    ($text:literal $(, $further:literal)*) => {
        concat!(
            $text,
            r#"

Exit status:
  0  done
  1  an error; the standard error has its name, as in `fault: Disk`
  2  wrong arguments, or a request for help"#
            $(, $further)*
        )
    };
}

/// The same of a subcommand that writes to a register.
macro_rules! with_store {
    ($text:literal $(, $further:literal)*) => {
        with_statuses!(
            $text
            $(, $further)*,
            "\n  4  the register's file failed, as on a full disk (see ERRORS.md)"
        )
    };
}

pub(crate) const PROGRAM: &str = with_store!(
    r#"A first season, to be pasted into a shell in an empty folder:
  admissions init reg.db secondary 2025
  echo '{"cmd":"add_school","school":"OAK","name":"Oak School","pan":1,' \
    '"east":0,"north":0,"criteria":["sibling"]}' | admissions do reg.db
  printf '%s\n' \
    child,name,east,north,looked_after,flags,siblings,day,preferences \
    1,Ann,100,0,no,,,2024-10-20,OAK 2,Bo,200,0,no,,,2024-10-21,OAK \
    > applications.csv
  admissions import reg.db applications.csv
  admissions pairs reg.db
  echo '{"cmd":"round","draw":1,"day":"2025-03-03","lots":[2,1]}' |
    admissions do reg.db
  admissions letter reg.db 2

The help of each subcommand has an example, as in `admissions do --help`. Those
of init, do, import, what-if, pairs, round-report, letter, list, show and serve
make up one season, in this order. The manual page, `man admissions`, has all
of this. HANDBOOK.md takes an office through a season; it is in
share/doc/admissions below where this was installed."#,
    "\n  3  some line or row was refused or unreadable, or ran out of memory"
);

pub(crate) const INIT: &str = with_statuses!(
    r#"Example:
  admissions init reg.db secondary 2025 2025-04-18 2025-04-21"#
);

pub(crate) const DO: &str = with_store!(
    r#"The forms of commands and answers are in FORMATS.md, under 'A command line' and
'An answer', in share/doc/admissions below where this was installed.

Example, in a new register:
  (echo '{"cmd":"add_school","school":"OAK","name":"Oak School","pan":2,' \
    '"east":0,"north":0,"criteria":["sibling","within:1000"]}'
  echo '{"cmd":"add_school","school":"ELM","name":"Elm School","pan":1,' \
    '"east":3000,"north":0,"criteria":[]}') | admissions do reg.db"#,
    "\n  3  some line was refused or unreadable, or ran out of memory"
);

pub(crate) const WHAT_IF: &str = with_statuses!(
    r#"A question changes nothing in the register. Its form is in FORMATS.md, under
'A question', in share/doc/admissions below where this was installed.

Example, before the first round, with the lots of its seven pairs:
  echo '{"child":1,"lots":[3,1,2,4,2,1,3],"preferences":["ELM","OAK"]}' |
    admissions what-if reg.db"#,
    "\n  3  some line was refused or unreadable, or ran out of memory"
);

pub(crate) const IMPORT: &str = with_store!(
    r#"All rows are imported, or none; there are 2000 at most. The first line of the
file is this, alone or with ,present or ,present,catchments after it:
  child,name,east,north,looked_after,flags,siblings,day,preferences

Columns:
  child         the child's number, from 1 to 9999999
  name          1 to 80 bytes, in UTF-8
  east          metres of the home, from 0 to 1500000
  north         the same
  looked_after  yes or no: whether the child is or was looked after
  flags         numbers from 0 to 15 between semicolons, or empty
  siblings      codes of the schools of siblings between semicolons, or empty
  day           the day of the application, YYYY-MM-DD
  preferences   codes of 1 to 10 schools between semicolons, best first
  present       the code of the present school, or empty
  catchments    for a large register: codes of its catchment schools, or empty

Example, in a register with the schools OAK and ELM:
  printf '%s\n' \
    child,name,east,north,looked_after,flags,siblings,day,preferences \
    '1,Ann,100,0,no,,,2024-10-20,OAK;ELM' \
    '2,Bo,2900,0,no,,OAK,2024-10-21,OAK' \
    '3,Cy,200,0,no,,,2024-10-22,OAK;ELM' \
    '4,Di,2500,0,no,,,2024-10-23,ELM;OAK' > applications.csv
  admissions import reg.db applications.csv"#,
    "\n  3  a row was refused, or ran out of memory; nothing was imported"
);

pub(crate) const SERVE: &str = with_store!(
    r#"The forms of requests and of their answers are in FORMATS.md, under 'Requests
over HTTP'. INSTALL.md describes how to serve an office. Both are in
share/doc/admissions below where this was installed.

Example, which ends after two requests:
  admissions serve reg.db 8080 --count 2 &
  curl -s --retry 9 --retry-connrefused http://127.0.0.1:8080/child/3/letter
  curl -s -d '{"cmd":"accept","child":2,"school":"OAK"}' \
    http://127.0.0.1:8080/command"#
);

pub(crate) const LETTER: &str = with_statuses!(
    r#"Example, after a round:
  admissions letter reg.db 3"#
);

pub(crate) const LIST: &str = with_statuses!(
    r#"Example, after a round:
  admissions list reg.db OAK"#
);

pub(crate) const ROUND_REPORT: &str = with_statuses!(
    r#"Example, after the first round:
  admissions round-report reg.db 1"#
);

pub(crate) const PAIRS: &str = with_statuses!(
    r#"Example, before the first round, and then the round with a lot for each pair:
  admissions pairs reg.db
  echo '{"cmd":"round","draw":1,"day":"2025-03-03","lots":[3,1,2,4,2,1,3]}' |
    admissions do reg.db"#
);

pub(crate) const SHOW: &str = with_statuses!(
    r#"The register is printed as one line of JSON, which has no lots and no imported
rows; with --draw N one draw is, with its lots. Its members are in FORMATS.md,
under 'The register as JSON', in share/doc/admissions below where this was
installed.

Example, after the first round:
  admissions show reg.db
  admissions show reg.db --draw 1"#
);
