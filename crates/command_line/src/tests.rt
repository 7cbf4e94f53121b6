use crate::{Task, parse};
use clap::error::ErrorKind;
use path::{Mode, Options};
use piles::AnyProtection;
use std::alloc::Global;
use std::test::Fail;
use tool::{Kind, Question};

// The kind of the error, and the status that it asks for; none if the words are a task.
fn error_of(heap: Global, words: &[&str]) -> Option<(ErrorKind, i32)> {
    match parse(heap, words) {
        Ok(_) => None,
        Err(error) => Some((error.kind(), error.exit_code())),
    }
}

// Whether the words ask this question of these names.
fn asks(heap: Global, words: &[&str], wanted: Question, of: &[&str]) -> bool {
    match parse(heap, words) {
        Ok(Task::Answer { question, names }) => question == wanted && names.as_slice() == of,
        _ => false,
    }
}

#[test]
fn reads_questions(rt: HostRuntime) {
    let heap = rt.alloc();
    let check = ["gushteral", "check", "complete", "refs/heads/a", "b=c"];
    let complete = Question::Check(Kind::Complete);
    assert!(rt;
        asks(
            heap,
            check.as_slice(),
            complete,
            ["refs/heads/a", "b=c"].as_slice()
        )
    );
    let component = ["gushteral", "component", "--link", "--hfs", "--", "--x"];
    let link = Question::Component {
        mode: Some(Mode::Symlink),
        options: Options {
            protect_windows: false,
            protect_hfs: true,
            protect_ntfs: false,
        },
    };
    assert!(rt; asks(heap, component.as_slice(), link, ["--x"].as_slice()));
    let bare = Question::Component {
        mode: None,
        options: Options::default(),
    };
    assert!(rt; asks(heap, ["gushteral", "component"].as_slice(), bare, &[]));
    let mend = ["gushteral", "mend", "Dr. Jones*", ""];
    assert!(rt;
        asks(
            heap,
            mend.as_slice(),
            Question::Mend,
            ["Dr. Jones*", ""].as_slice()
        )
    );
}

#[test]
fn reads_meet(rt: HostRuntime) -> Result<(), Fail> {
    let words = [
        "gushteral",
        "meet",
        "--layer",
        "hfs",
        "a",
        "--pair",
        "lib=library",
        "--layer=windows-devices",
        "--pair=x==y",
        "b",
    ];
    let Task::Meet {
        layers,
        pairs,
        left,
        right,
    } = parse(rt.alloc(), words.as_slice())?
    else {
        return Err(Fail::from("another task"));
    };
    assert!(rt;
        layers.as_slice() == [AnyProtection::Hfs, AnyProtection::WindowsDevices].as_slice()
    );
    assert!(rt; pairs.as_slice() == [("lib", "library"), ("x", "=y")].as_slice());
    assert!(rt; left == "a" && right == "b");
    Ok(())
}

#[test]
fn reads_explain(rt: HostRuntime) -> Result<(), Fail> {
    let words = ["gushteral", "explain", "255"];
    let Task::Explain { number } = parse(rt.alloc(), words.as_slice())? else {
        return Err(Fail::from("another task"));
    };
    assert!(rt; number == 255);
    Ok(())
}

#[test]
fn refuses_wrong_words(rt: HostRuntime) {
    let heap = rt.alloc();
    let wrong = [
        (["check", "tags", "a"], ErrorKind::InvalidValue),
        (
            ["component", "--none", "--hfs"],
            ErrorKind::ArgumentConflict,
        ),
        (["meet", "--layer=ext4", "a"], ErrorKind::InvalidValue),
        (
            ["meet", "a", "--pair=b=c"],
            ErrorKind::MissingRequiredArgument,
        ),
        (["explain", "256", "--"], ErrorKind::ValueValidation),
        (["explain", "many", "--"], ErrorKind::ValueValidation),
    ];
    for (words, kind) in wrong {
        let [task, first, second] = words;
        let words = ["gushteral", task, first, second];
        assert_eq!(rt; error_of(heap, words.as_slice()), Some((kind, 2)));
    }
}

#[test]
fn refuses_no_task_and_no_pair(rt: HostRuntime) {
    let heap = rt.alloc();
    let none = ["gushteral"];
    let missing = Some((ErrorKind::MissingSubcommand, 2));
    assert_eq!(rt; error_of(heap, none.as_slice()), missing);
    let pair = ["gushteral", "meet", "--pair", "ab", "a", "b"];
    let no_pair = Some((ErrorKind::ValueValidation, 2));
    assert_eq!(rt; error_of(heap, pair.as_slice()), no_pair);
}

#[test]
fn shows_help_and_the_version(rt: HostRuntime) -> Result<(), Fail> {
    let heap = rt.alloc();
    for task in ["check", "component", "mend", "meet", "explain"] {
        let words = ["gushteral", task, "--help"];
        assert_eq!(rt;
            error_of(heap, words.as_slice()),
            Some((ErrorKind::DisplayHelp, 0))
        );
    }
    let help = ["gushteral", "--help"];
    assert_eq!(rt;
        error_of(heap, help.as_slice()),
        Some((ErrorKind::DisplayHelp, 0))
    );
    let version = ["gushteral", "--version"];
    let Err(error) = parse(heap, version.as_slice()) else {
        return Err(Fail::from("a task"));
    };
    let text = format!(in heap; "{error}")?;
    let wanted = "gushteral 1.0.0 (rattle-kit-13f logic dac8208d650f15bf)\n";
    assert!(rt; text.as_str() == wanted && error.exit_code() == 0);
    Ok(())
}
