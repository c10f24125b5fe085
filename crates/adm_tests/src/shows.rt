// What no clause says: worked examples of the line that prints the register or a draw.
use adm_words::{Action, WordsFault, action};

const SHOWN: [(&[&str], Option<u32>); 5] = [
    (&["admissions", "show", "f"], None),
    (&["admissions", "show", "f", "--draw", "0"], Some(0)),
    (&["admissions", "show", "--draw", "12", "f"], Some(12)),
    (&["admissions", "show", "f", "--draw=12"], Some(12)),
    (
        &["admissions", "show", "--draw=4294967295", "--", "f"],
        Some(4_294_967_295),
    ),
];

const WRONG: [&[&str]; 5] = [
    &["admissions", "show"],
    &["admissions", "show", "f", "1"],
    &["admissions", "show", "f", "--draw"],
    &["admissions", "show", "f", "--draw", "1", "--draw", "1"],
    &["admissions", "show", "f", "--count", "1"],
];

#[test]
fn a_register_or_a_draw_is_shown(rt: HostRuntime) {
    for (words, wanted) in SHOWN {
        let is_read = match action(rt.alloc(), words) {
            Ok(Action::Show { file, draw }) => file == "f" && draw == wanted,
            _ => false,
        };
        assert!(rt; is_read);
    }
}

#[test]
fn wrong_words_show_nothing(rt: HostRuntime) {
    for word in ["", "x", "07", "+1", "4294967296"] {
        let words = ["admissions", "show", "f", "--draw", word];
        assert!(rt; matches!(action(rt.alloc(), &words), Err(WordsFault::BadWord)));
    }
    for words in WRONG {
        assert!(rt; matches!(action(rt.alloc(), words), Err(WordsFault::Usage(_))));
    }
}
