//! What single words of the command line name.
ghost use Rattle.std.specs.Prelude.{◌≡◌, ◌++◌, ◌↔◌, codes, Contains, IfSome, IsSome};
ghost use Rattle.std.specs.Str.{byte};
ghost use Rattle.piles.specs.declared.any_protection.AnyProtection.{AnyProtection};
ghost use Rattle.tool.specs.declared.checks.Kind.{Kind};
ghost use Rattle.command_line.specs.Words.{kind_word, layer_word};

use piles::AnyProtection;
use tool::Kind;

/// The words that name a kind.
pub(crate) static KIND_WORDS: [&str; 5] = ["tag", "partial", "complete", "branch", "path"];

/// The words that name a layer.
pub(crate) static LAYER_WORDS: [&str; 5] = [
    "windows-names",
    "hfs",
    "ntfs",
    "windows-devices",
    "plain",
];

/// The kind that a word names; none if it names no kind.
pub fn kind_of(word: &str) -> Option<Kind>
    ensures named { IfSome result (λ kind. kind_word kind ≡ word.now) }
    ensures each { (kind : Kind) → kind_word kind ≡ word.now → IsSome result }
{
    match word {
        "tag" => Some(Kind::Tag),
        "partial" => Some(Kind::Partial),
        "complete" => Some(Kind::Complete),
        "branch" => Some(Kind::Branch),
        "path" => Some(Kind::Path),
        _ => None,
    }
}

/// The layer that a word names; none if it names no layer.
pub fn layer_of(word: &str) -> Option<AnyProtection>
    ensures named { IfSome result (λ layer. layer_word layer ≡ word.now) }
    ensures each { (layer : AnyProtection) → layer_word layer ≡ word.now → IsSome result }
{
    match word {
        "windows-names" => Some(AnyProtection::WindowsNames),
        "hfs" => Some(AnyProtection::Hfs),
        "ntfs" => Some(AnyProtection::Ntfs),
        "windows-devices" => Some(AnyProtection::WindowsDevices),
        "plain" => Some(AnyProtection::Plain),
        _ => None,
    }
}

/// The two components of a pair `A=B`: what stands before the first `=`, and what stands after it;
/// none if there is no `=`.
pub fn pair_of(word: &str) -> Option<(&str, &str)>
    ensures found { IsSome result ↔ Contains word.now (byte "=") }
    ensures joined { IfSome result (λ pair.
        word.now ≡ pair.0.now ++ (codes "=" ++ pair.1.now)) }
    ensures first { IfSome result (λ pair. ¬ Contains pair.0.now (byte "=")) }
{
    word.split_once('=')
}
