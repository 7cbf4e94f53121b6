//! Names checked and texts mended, with examples of Git's manual page git-check-ref-format and of the ported crate's documents.
use reference::Error;
use std::test::Fail;

// The number by which a check refuses a name, none for an allowed one.
fn number<'a, E: Into<Error<'a>>>(res: Result<&'a [u8], E>) -> Option<u8> {
    Some(res.err()?.into().number())
}

#[derive(Clone, Copy)]
enum Check {
    Tag,
    Partial,
    Complete,
    Branch,
}

impl Check {
    // The number by which the check refuses the name, none for an allowed one.
    fn refusal(self, name: &'static [u8]) -> Option<u8> {
        match self {
            Check::Tag => number(tag::name(name)),
            Check::Partial => number(reference::name_partial(name)),
            Check::Complete => number(reference::name(name)),
            Check::Branch => number(reference::branch_name(name)),
        }
    }

    // Whether the check refuses each of these by its number.
    fn refuses(self, cases: &[Case]) -> bool {
        cases
            .iter()
            .all(|(name, refused)| self.refusal(*name) == *refused)
    }
}

// A name, and the number by which it is refused, none for an allowed one.
type Case = (&'static [u8], Option<u8>);

#[test]
fn rules_of_the_manual(rt: HostRuntime) {
    let cases: [Case; 19] = [
        (b"heads/.hidden", Some(8)),
        (b"heads/topic.lock", Some(5)),
        (b"heads.lock/topic", Some(5)),
        (b"one..two", Some(4)),
        (b"tab\there", Some(1)),
        (b"del\x7f", Some(1)),
        (b"a~1", Some(1)),
        (b"a^2", Some(1)),
        (b"src:dst", Some(1)),
        (b"what?", Some(1)),
        (b"foo/bar*/baz", Some(7)),
        (b"set[1]", Some(1)),
        (b"/heads", Some(2)),
        (b"heads/", Some(10)),
        (b"heads//topic", Some(3)),
        (b"topic.", Some(9)),
        (b"main@{1}", Some(6)),
        (b"back\\slash", Some(1)),
        (b"refs/heads/main", None),
    ];
    assert!(rt; Check::Tag.refuses(&cases));
}

#[test]
fn tag_names(rt: HostRuntime) {
    let cases: [Case; 8] = [
        (b"v1.0", None),
        (b"alpha-1", None),
        (b"@", None),
        (b"", Some(11)),
        (b"/", Some(10)),
        (b".lock", Some(8)),
        (b".lock/x", Some(5)),
        (b".a b", Some(1)),
    ];
    assert!(rt; Check::Tag.refuses(&cases));
    assert_eq!(rt; tag::Error::Empty.number(), 11);
}

#[test]
fn one_level_names(rt: HostRuntime) {
    let complete: [Case; 6] = [
        (b"lower", Some(12)),
        (b"A1", Some(12)),
        (b"HEAD", None),
        (b"FETCH_HEAD", None),
        (b"refs/lower", None),
        (b"refs/heads/@", None),
    ];
    let partial: [Case; 2] = [(b"some-name", None), (b"@", Some(13))];
    assert!(rt; Check::Complete.refuses(&complete) && Check::Partial.refuses(&partial));
}

#[test]
fn branch_names(rt: HostRuntime) {
    let branches: [Case; 5] = [
        (b"refs/heads/HEAD", Some(13)),
        (b"refs/heads/-draft", Some(13)),
        (b"refs/heads/a/-b", None),
        (b"HEAD", None),
        (b"main", Some(12)),
    ];
    let complete: [Case; 1] = [(b"refs/heads/-draft", None)];
    assert!(rt; Check::Branch.refuses(&branches) && Check::Complete.refuses(&complete));
}

// Whether the mender makes this handle of the text.
fn mends(text: &[u8], handle: &[u8]) -> bool {
    let mut buffer = [1u8; 16];
    reference::name_partial_or_sanitize(text, &mut buffer).is_ok_and(|length| buffer.get(..length)
        == Some(handle))
}

#[test]
fn mended_texts(rt: HostRuntime) {
    let texts: [(&'static [u8], &'static [u8]); 10] = [
        (b"a.lock.lock", b"a"),
        (b"@.lock", b"-"),
        (b"a..lock", b"a"),
        (b".lock", b"-lock"),
        (b"a./", b"a-"),
        (b"", b"-"),
        (b"///", b"-"),
        (b"//a//b//", b"a/b"),
        (b"@{now}", b"@-now}"),
        (b"refs/heads/@", b"refs/heads/@"),
    ];
    assert!(rt; texts.iter().all(|(text, handle)| mends(text, handle)));
}

#[test]
fn buffers(rt: HostRuntime) {
    let mut long = [7u8; 5];
    let answer = reference::name_partial_or_sanitize(b"//a", &mut long);
    assert!(rt; answer.is_ok_and(|length| length == 1));
    assert_eq!(rt; long, [b'a', 0, 0, 7, 7]);
    let mut short = [7u8; 2];
    let answer = reference::name_partial_or_sanitize(b"//a", &mut short);
    assert!(rt; answer.is_err_and(|error| error.number() == 31));
    assert_eq!(rt; short, [7, 7]);
}

#[test]
fn words_of_errors(rt: HostRuntime) -> Result<(), Fail> {
    let words: [(Error<'static>, &'static str); 15] = [
        (Error::InvalidByte(0), "a name may not have this byte: 0x00"),
        (
            Error::InvalidByte(b' '),
            "a name may not have this byte: 0x20",
        ),
        (
            Error::InvalidByte(0x80),
            "a name may not have this byte: 0x80",
        ),
        (Error::StartsWithSlash, "a name may not start with a slash"),
        (
            Error::RepeatedSlash,
            "a name may not have two slashes in a row",
        ),
        (Error::RepeatedDot, "a name may not have two dots in a row"),
        (Error::LockFileSuffix, "no part of a name may end in .lock"),
        (
            Error::ReflogPortion,
            "a name may not have an at sign before an opening brace",
        ),
        (Error::Asterisk, "a name may not have an asterisk"),
        (
            Error::StartsWithDot,
            "no part of a name may start with a dot",
        ),
        (Error::EndsWithDot, "a name may not end with a dot"),
        (Error::EndsWithSlash, "a name may not end with a slash"),
        (Error::Empty, "a name may not be empty"),
        (
            Error::SomeLowercase,
            "a name with no slash must be of capital letters and underscores, like HEAD",
        ),
        (Error::Reserved(b"@"), "this name is reserved"),
    ];
    for (error, text) in &words {
        let written = format!(in rt.alloc(); "{error}")?;
        assert_eq!(rt; written.as_str(), *text);
    }
    let short = format!(in rt.alloc(); "{}", mending::Error::BufferTooShort)?;
    assert_eq!(rt;
        short.as_str(),
        "the buffer must have as many bytes as the text, and at least one"
    );
    Ok(())
}
