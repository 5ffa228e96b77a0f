// The commands, their words, and what those are.
ghost use Rattle.std.specs.Prelude.{◌≡◌, ◌≤◌, bytes_eq, find, length};
ghost use Rattle.c2_usage.specs.CommandLine.{EachHasSameWords, command_of, commands, has_form};
ghost use Rattle.c2_usage.specs.CommandLine.{is_algorithm, is_count, is_fourth, is_media};
ghost use Rattle.c2_usage.specs.CommandLine.{is_one_word, is_out, is_second, is_third, name_of};
ghost use Rattle.c2_usage.specs.CommandLine.{usage_parts, usage_text, words_of};

use crate::numbers::pieces_of;
use crate::types::{Command, Role};
use c2_hash::alg_of;

/// All commands, in the order of the usage line.
pub fn commands() -> &'static [Command]
    ensures { result.now ≡ commands }
{
    &[
        Command::Digest,
        Command::List,
        Command::Show,
        Command::Questions,
        Command::Validate,
        Command::Compare,
        Command::Plan,
        Command::Embed,
        Command::Sample,
        Command::Strip,
        Command::Extract,
        Command::ValidateExternal,
        Command::PlanFront,
        Command::EmbedFront,
        Command::PlanCollect,
        Command::EmbedCollect,
    ]
}

/// The word of a command.
pub fn name_of<'a>(command: Command) -> &'a str
    ensures { result.now ≡ name_of command }
{
    match command {
        Command::Digest => "digest",
        Command::List => "list",
        Command::Show => "show",
        Command::Questions => "questions",
        Command::Validate => "validate",
        Command::Compare => "compare",
        Command::Plan => "plan",
        Command::Embed => "embed",
        Command::Sample => "sample",
        Command::Strip => "strip",
        Command::Extract => "extract",
        Command::ValidateExternal => "validate-external",
        Command::PlanFront => "plan-front",
        Command::EmbedFront => "embed-front",
        Command::PlanCollect => "plan-collect",
        Command::EmbedCollect => "embed-collect",
    }
}

/// What each word behind a command's own is, in order.
pub fn words_of(command: Command) -> &'static [Role]
    ensures words { result.now ≡ words_of command }
    ensures few { length result.now ≤ 6 }
{
    match command {
        Command::Digest => &[Role::Media, Role::Algorithm],
        Command::List | Command::Show => &[Role::Media],
        Command::Questions | Command::Validate => &[Role::Media, Role::Judges],
        Command::Compare => &[Role::Media, Role::Other, Role::Judges],
        Command::Plan => &[Role::Media, Role::Definition, Role::Judges],
        Command::Embed => &[
            Role::Media,
            Role::Definition,
            Role::Signature,
            Role::Out,
            Role::Judges,
        ],
        Command::Sample => &[Role::Count],
        Command::Strip | Command::Extract => &[Role::Media, Role::Out],
        Command::ValidateExternal => &[Role::Media, Role::Store, Role::Judges],
        Command::PlanFront => &[Role::Media, Role::Definition],
        Command::EmbedFront => &[Role::Media, Role::Definition, Role::Signature, Role::Out],
        Command::PlanCollect => &[Role::Media, Role::Definition, Role::Collected, Role::Judges],
        Command::EmbedCollect => &[
            Role::Media,
            Role::Definition,
            Role::Signature,
            Role::Collected,
            Role::Out,
            Role::Judges,
        ],
    }
}

/// The usage line, without its line feed: each part has the commands that take the same words, and those words.
pub fn usage() -> &'static str
    ensures text { result.now ≡ usage_text }
    ensures parts { EachHasSameWords usage_parts }
{
    "usage: c2 digest MEDIA [ALG]; list|show MEDIA; questions|validate MEDIA [JUDGE..]; compare MEDIA OTHER [JUDGE..]; plan MEDIA DEFINITION [JUDGE..]; embed MEDIA DEFINITION SIGNATURE OUT [JUDGE..]; sample N; strip|extract MEDIA OUT; validate-external MEDIA STORE [JUDGE..]; plan-front MEDIA DEFINITION; embed-front MEDIA DEFINITION SIGNATURE OUT; plan-collect MEDIA DEFINITION OTHER [JUDGE..]; embed-collect MEDIA DEFINITION SIGNATURE OTHER OUT [JUDGE..]"
}

/// The command of a word.
pub fn command_of(word: &str) -> Option<Command>
    ensures { result ≡ command_of word.now }
{
    named(commands(), word)
}

// The command of this name among these.
fn named(commands: &[Command], word: &str) -> Option<Command>
    ensures { result ≡ find (λ c. bytes_eq word.now (name_of c)) commands.now }
{
    commands
        .iter()
        .copied()
        .find(|command| word == name_of(*command))
}

impl Role {
    /// Whether the word is the media file, the first source.
    pub fn is_media(&self) -> bool
        ensures { result ≡ is_media self.now }
    {
        matches!(self, Role::Media)
    }

    /// Whether the word is the second source: the other file of `compare`, a definition file, or an external store.
    pub fn is_second(&self) -> bool
        ensures { result ≡ is_second self.now }
    {
        matches!(self, Role::Other | Role::Definition | Role::Store)
    }

    /// Whether the word is the third source: a signed message.
    pub fn is_third(&self) -> bool
        ensures { result ≡ is_third self.now }
    {
        matches!(self, Role::Signature)
    }

    /// Whether the word is the fourth source: another media file whose manifests are taken in.
    pub fn is_fourth(&self) -> bool
        ensures { result ≡ is_fourth self.now }
    {
        matches!(self, Role::Collected)
    }

    /// Whether the word is the new file.
    pub fn is_out(&self) -> bool
        ensures { result ≡ is_out self.now }
    {
        matches!(self, Role::Out)
    }

    /// Whether the word is a number of pieces.
    pub fn is_count(&self) -> bool
        ensures { result ≡ is_count self.now }
    {
        matches!(self, Role::Count)
    }

    /// Whether the word is the name of an algorithm.
    pub fn is_algorithm(&self) -> bool
        ensures { result ≡ is_algorithm self.now }
    {
        matches!(self, Role::Algorithm)
    }

    /// Whether the role is that of one word, and not of any number of names of judges.
    pub fn is_one_word(&self) -> bool
        ensures { result ≡ is_one_word self.now }
    {
        !matches!(self, Role::Judges)
    }

    /// Whether a word has the form of this role.
    pub fn has_form(&self, word: &str) -> bool
        ensures { result ≡ has_form self.now word.now }
    {
        match self {
            Role::Count => pieces_of(word).is_some(),
            Role::Algorithm => alg_of(word).is_some(),
            Role::Media
            | Role::Other
            | Role::Definition
            | Role::Signature
            | Role::Store
            | Role::Collected
            | Role::Out
            | Role::Judges => true,
        }
    }
}
