//! The rulebooks on examples.
use rulebooks::names::{
    BranchNames, CompleteNames, PartialNames, TagNames, branch_name, complete_name, partial_name,
    tag_name,
};
use rulebooks::trees::{TreePaths, tree_path};
use rulebooks::{MendingRulebook, Rulebook, RulebookFault};

// The kind, number and value of a refusal.
type Refused = (u8, u8, usize);

// A name or path, and how it is refused, if it is.
type Case = (&'static [u8], Option<Refused>);

// How a name is refused by this answer, if it is.
fn refused(answer: Result<(), RulebookFault>) -> Option<Refused> {
    let fault = answer.err()?;
    Some((fault.kind, fault.refusal.number, fault.refusal.value))
}

// Which kind is asked, by its call.
#[derive(Clone, Copy)]
enum Kind {
    Partial,
    Complete,
    Branch,
    Tag,
    Tree,
}

impl Kind {
    fn ask(self, name: &[u8]) -> Result<(), RulebookFault> {
        match self {
            Kind::Partial => partial_name(name),
            Kind::Complete => complete_name(name),
            Kind::Branch => branch_name(name),
            Kind::Tag => tag_name(name),
            Kind::Tree => tree_path(name),
        }
    }

    // Whether the kind answers these so.
    fn answers(self, cases: &[Case]) -> bool {
        cases
            .iter()
            .all(|(name, refusal)| refused(self.ask(*name)) == *refusal)
    }
}

#[test]
fn kinds(rt: HostRuntime) {
    let kinds = [
        PartialNames::KIND,
        CompleteNames::KIND,
        BranchNames::KIND,
        TagNames::KIND,
        TreePaths::KIND,
    ];
    assert!(rt; kinds == [1, 2, 3, 4, 5]);
}

#[test]
fn partial_names(rt: HostRuntime) {
    let cases: [Case; 5] = [
        (b"staff/Smith", None),
        (b"/", Some((1, 10, 0))),
        (b"@", Some((1, 13, 0))),
        (b".lock/x", Some((1, 5, 0))),
        (b".a b", Some((1, 1, 0x20))),
    ];
    assert!(rt; Kind::Partial.answers(&cases));
}

#[test]
fn other_names(rt: HostRuntime) {
    let complete: [Case; 2] = [(b"HEAD", None), (b"A1", Some((2, 12, 0)))];
    let branches: [Case; 2] = [
        (b"refs/heads/main", None),
        (b"refs/heads/-x", Some((3, 13, 0))),
    ];
    let tags: [Case; 2] = [(b"@", None), (b"v1..0", Some((4, 4, 0)))];
    assert!(rt;
        Kind::Complete.answers(&complete)
            && Kind::Branch.answers(&branches)
            && Kind::Tag.answers(&tags)
    );
}

#[test]
fn tree_paths(rt: HostRuntime) {
    let cases: [Case; 6] = [
        (b"a b/*.c/...", None),
        (b"", Some((5, 21, 0))),
        (b"a/b/", Some((5, 21, 2))),
        (b"a/../.", Some((5, 28, 1))),
        (b".", Some((5, 28, 0))),
        (b"a//.", Some((5, 21, 1))),
    ];
    assert!(rt; Kind::Tree.answers(&cases));
}

#[test]
fn mends(rt: HostRuntime) {
    let mut out = [7u8; 8];
    assert!(rt; PartialNames.mend(b"@.lock", &mut out).is_ok());
    assert_eq!(rt; out, [45, 0, 0, 0, 0, 0, 7, 7]);
    assert!(rt; PartialNames.mend(b"a.lock.lock", &mut out).is_err());
    assert_eq!(rt; out, [45, 0, 0, 0, 0, 0, 7, 7]);
    assert!(rt; PartialNames.check(&out[0..1]).is_ok());
}
