// Which word is which.
ghost use Rattle.std.specs.Prelude.{◌≡◌, ◌+◌, ◌<◌, ◌≤◌, IfSome, length, map, string_bytes};
ghost use Rattle.std.specs.Prelude.{option_and_then, option_map, position};
ghost use Rattle.std.specs.Option.{ForSome};
ghost use Rattle.std.specs.List.{list_all};
ghost use Rattle.c2_spec.specs.Digest.{alg_named};
ghost use Rattle.c2_usage.specs.CommandLine.{GivesRoles, first_judge, fit, is_algorithm, is_count};
ghost use Rattle.c2_usage.specs.CommandLine.{is_fourth, is_name, is_media, is_out, is_second};
ghost use Rattle.c2_usage.specs.CommandLine.{is_third, pieces_of, roles_of_names, roles_with};
ghost use Rattle.c2_usage.specs.CommandLine.{word_as, words_of};

use crate::commands::{command_of, words_of};
use crate::numbers::pieces_of;
use crate::parsing::parse;
use crate::types::{Command, Role, Roles, RolesError};
use c2_base::limits::MAX_JUDGE_NAMES;
use c2_hash::alg_of;
use c2_spec::Alg;
use std::alloc::Global;

/// Says which word is which: `Usage` exactly where the words fit no command, unless memory runs out.
#[tactic(auto, using(crate::proofs::Naming::all_names))]
pub fn roles(alloc: Global, words: &Vec<String>) -> Result<Roles, RolesError>
    ensures { GivesRoles (map string_bytes words.now.items) result }
{
    if !are_names(words) {
        return Err(RolesError::Usage);
    }
    parse(alloc, words)?;
    match roles_of_names(words) {
        Some(roles) => Ok(roles),
        None => Err(RolesError::Usage),
    }
}

// Whether each word may be a name.
fn are_names(words: &Vec<String>) -> bool
    ensures { result ≡ list_all (λ word. is_name (string_bytes word)) words.now.items }
{
    words.iter().all(is_name)
}

// The roles of words that may all be names.
fn roles_of_names(words: &Vec<String>) -> Option<Roles>
    ensures { result ≡ roles_of_names (map string_bytes words.now.items) }
{
    let [first, words @ ..] = words.as_slice() else {
        return None;
    };
    roles_with(command_of(first.as_str())?, words)
}

// The roles of a command with these words behind it.
fn roles_with(command: Command, words: &[String]) -> Option<Roles>
    ensures { result ≡ roles_with command (map string_bytes words.now) }
{
    let roles = words_of(command);
    if !fit(roles, words) {
        return None;
    }
    Some(Roles {
        command,
        media: behind(media_place(roles)),
        second: behind(second_place(roles)),
        third: behind(third_place(roles)),
        fourth: behind(fourth_place(roles)),
        out: behind(out_place(roles)),
        judges: first_judge(roles, words),
        count: count_in(roles, words),
        alg: alg_in(roles, words),
    })
}

// Which word is the media file.
fn media_place(roles: &[Role]) -> Option<usize>
    ensures place { result ≡ position is_media roles.now }
    ensures within { IfSome result (λ i. i < length roles.now) }
{
    roles.iter().position(Role::is_media)
}

// Which word is the second source.
fn second_place(roles: &[Role]) -> Option<usize>
    ensures place { result ≡ position is_second roles.now }
    ensures within { IfSome result (λ i. i < length roles.now) }
{
    roles.iter().position(Role::is_second)
}

// Which word is the third source.
fn third_place(roles: &[Role]) -> Option<usize>
    ensures place { result ≡ position is_third roles.now }
    ensures within { IfSome result (λ i. i < length roles.now) }
{
    roles.iter().position(Role::is_third)
}

// Which word is the fourth source.
fn fourth_place(roles: &[Role]) -> Option<usize>
    ensures place { result ≡ position is_fourth roles.now }
    ensures within { IfSome result (λ i. i < length roles.now) }
{
    roles.iter().position(Role::is_fourth)
}

// Which word is the new file.
fn out_place(roles: &[Role]) -> Option<usize>
    ensures place { result ≡ position is_out roles.now }
    ensures within { IfSome result (λ i. i < length roles.now) }
{
    roles.iter().position(Role::is_out)
}

// The place of a word behind the command's own, counted from that.
fn behind(place: Option<usize>) -> Option<usize>
    requires { ForSome place (λ i. i < 6) }
    ensures { result ≡ option_map (λ i. i + 1) place }
{
    Some(place? + 1)
}

// Where names of judges begin.
fn first_judge(roles: &[Role], words: &[String]) -> usize
    requires { length roles.now ≤ 6 }
    ensures { result ≡ first_judge roles.now (map string_bytes words.now) }
{
    let before = roles.iter().filter(|role| role.is_one_word()).count();
    words.len().min(before) + 1
}

// How many pieces words ask for.
fn count_in(roles: &[Role], words: &[String]) -> Option<u32>
    ensures { result ≡ option_and_then pieces_of
        (word_as is_count roles.now (map string_bytes words.now)) }
{
    match words.get(count_place(roles)?) {
        Some(word) => pieces_of(word.as_str()),
        None => None,
    }
}

// Which of these roles is a number of pieces.
fn count_place(roles: &[Role]) -> Option<usize>
    ensures { result ≡ position is_count roles.now }
{
    roles.iter().position(Role::is_count)
}

// The algorithm that words name.
fn alg_in(roles: &[Role], words: &[String]) -> Option<Alg>
    ensures { result ≡ option_and_then alg_named
        (word_as is_algorithm roles.now (map string_bytes words.now)) }
{
    match words.get(alg_place(roles)?) {
        Some(word) => alg_of(word.as_str()),
        None => None,
    }
}

// Which of these roles is an algorithm.
fn alg_place(roles: &[Role]) -> Option<usize>
    ensures { result ≡ position is_algorithm roles.now }
{
    roles.iter().position(Role::is_algorithm)
}

// Whether words fit roles.
fn fit(roles: &[Role], words: &[String]) -> bool
    ensures { result ≡ fit roles.now (map string_bytes words.now) }
{
    match (roles, words) {
        ([], _) => words.is_empty(),
        ([Role::Judges, ..], _) => words.len() <= MAX_JUDGE_NAMES,
        ([Role::Algorithm, roles @ ..], []) => fit(roles, words),
        ([_, ..], []) => false,
        ([role, roles @ ..], [word, words @ ..]) => {
            role.has_form(word.as_str()) && fit(roles, words)
        }
    }
}

// Whether a word may be a name.
fn is_name(word: &String) -> bool
    ensures { result ≡ is_name (string_bytes word.now) }
{
    match word.as_bytes() {
        [] => false,
        [first, ..] => *first != b'-',
    }
}
