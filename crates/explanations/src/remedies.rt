//! What to do about each refusal.
ghost use Rattle.std.specs.Prelude.{◌≡◌};
ghost use Rattle.explanations.specs.Remedies.{component_remedy, name_remedy, register_remedy};

use protections::Verdict;
use register::faults::StateFault;
use words::NameRefusal;

pub(crate) fn of_name(refusal: NameRefusal) -> &'static str
    ensures { result.now ≡ name_remedy refusal }
{
    match refusal {
        NameRefusal::InvalidByte =>
            "leave the byte out or write another in its place; mending puts a dash there",
        NameRefusal::StartsWithSlash => "leave out the slash at the start",
        NameRefusal::RepeatedSlash => "keep one of the slashes",
        NameRefusal::RepeatedDot => "keep one of the dots",
        NameRefusal::LockFileSuffix => "leave out .lock at the end of each part between slashes",
        NameRefusal::ReflogPortion => "leave out the at sign or the brace",
        NameRefusal::Asterisk => "leave out the asterisk; mending puts a dash there",
        NameRefusal::StartsWithDot => "leave out the dot at the start of each part between slashes",
        NameRefusal::EndsWithDot => "leave out the dot at the end",
        NameRefusal::EndsWithSlash => "leave out the slash at the end",
        NameRefusal::Empty => "give a name of at least one byte",
        NameRefusal::SomeLowercase =>
            "put the name below another, as refs/heads/main, or use no other bytes",
        NameRefusal::Reserved => "choose another name: Git gives this one a meaning of its own",
        NameRefusal::EmptyComponent =>
            "leave out slashes at the start and the end, and all but one in a row",
        NameRefusal::RelativeComponent => "give the name of the directory itself",
    }
}

pub(crate) fn of_component(verdict: Verdict) -> &'static str
    ensures { result.now ≡ component_remedy verdict }
{
    match verdict {
        Verdict::PathSeparator =>
            "leave out the slash or backslash: a component is one part of a path",
        Verdict::WindowsPathPrefix => "choose a name whose second character is no colon",
        Verdict::WindowsReservedName =>
            "choose another name: not one such as aux, con, com1 or lpt1, alone or before a dot or a colon",
        Verdict::WindowsIllegalCharacter =>
            "leave out the character, or the dot or space at the end",
        Verdict::DotGitDir => "choose a name that none of these storages takes for .git",
        Verdict::SymlinkedGitModules => "give the link another name, or keep a file in its place",
    }
}

pub(crate) fn of_register(fault: StateFault) -> &'static str
    ensures { result.now ≡ register_remedy fault }
{
    match fault {
        StateFault::TooLong => "shorten it to 255 bytes",
        StateFault::Met { .. } => "choose another name, or rename or remove the kept one first",
        StateFault::Full =>
            "remove a name that is not used, or keep the new one in another register",
        StateFault::NotKept => "give the name as it is kept, byte for byte",
    }
}
