// Command line: the walk over the words of a command.
ghost use Rattle.std.specs.Prelude.{◌≡◌, ◌∷◌, ◌&&◌, not, Some, None, Ok, Err, map, option_map, option_and_then, IfOk, IfErr, OnOk, is_some, true, MatchOption, nat_eq, string_bytes, cond, drop, codes};
ghost use Rattle.std.specs.List.{list_any};
ghost use Rattle.std.specs.Str.{bytes_eq};
ghost use Rattle.jl_words.specs.Parts.{uses_of, said_in, spelled_in, reading_of};
ghost use Rattle.jl_words.specs.Reading.{is_flag, is_dashes, is_given, name_and_value, behind_dashes, spelled, nothing_read, with_use, with_option, with_plain, option_met, word_met, value_met, with_word, with_words, without_waiting, said_by, Said, said_by_words};
ghost use Rattle.jl_words.specs.Parsing.{IsFree};

use crate::parser::{gathered, matches};
use crate::parts::{Given, Parts};
use crate::types::SettingsFault;
use std::alloc::{AllocError, Global};

/// What was read so far: the option that waits for its value, and whether `--` has come.
#[derive(Drop)]
pub(crate) struct Reader<'a> {
    pub(crate) parts: Parts<'a>,
    pub(crate) waiting: Option<&'a str>,
    pub(crate) is_closed: bool,
}

/// An option word: its name, and its value where `=` stands behind the name.
#[derive(Clone, Copy, Drop)]
pub(crate) struct Spelling<'a> {
    pub(crate) name: &'a str,
    pub(crate) value: Option<&'a str>,
}

fn is_flag(word: &str) -> bool
    ensures { result ≡ is_flag word.now }
{
    matches!(word.as_bytes(), [b'-', _, ..])
}

fn without_dashes(word: &str) -> Option<&str>
    ensures { option_map (λ body. body.now) result ≡ behind_dashes word.now }
{
    word.strip_prefix("--")
}

fn name_and_value(body: &str) -> Spelling<'_>
    ensures { (result.name.now, option_map (λ v. v.now) result.value) ≡ name_and_value body.now }
{
    match body.split_once('=') {
        Some((name, value)) => Spelling {
            name,
            value: Some(value),
        },
        None => Spelling {
            name: body,
            value: None,
        },
    }
}

// An option in one of its two spellings.
fn option_word(word: &str) -> Option<Spelling<'_>>
    ensures { option_map spelled_in result ≡ spelled word.now }
{
    let body = without_dashes(word)?;
    Some(name_and_value(body))
}

fn is_among(names: &[&str], name: &str) -> bool
    ensures { result ≡ list_any (λ n. bytes_eq n name.now) (map (λ n. n.now) names.now) }
{
    let mut rest = names;
    while let [known, after @ ..] = rest {
        if *known == name {
            return true;
        }
        rest = after;
    }
    false
}

fn is_given(given: &[Given<'_>], name: &str) -> bool
    ensures { result ≡ is_given name.now (uses_of given.now) }
{
    let mut rest = given;
    while let [option, after @ ..] = rest {
        if option.name == name {
            return true;
        }
        rest = after;
    }
    false
}

impl<'a> Reader<'a> {
    fn new(alloc: Global) -> Result<Reader<'a>, AllocError>
        ensures { IfOk result (λ r. reading_of r ≡ nothing_read) }
    {
        Ok(Reader {
            parts: Parts {
                given: Vec::new(alloc.clone()?),
                plain: Vec::new(alloc),
            },
            waiting: None,
            is_closed: false,
        })
    }

    fn give(&mut self, name: &'a str, value: &'a str) -> Result<(), AllocError>
        ensures { OnOk result (reading_of self.new
            ≡ with_use name.entry.now value.entry.now (reading_of self.old)) }
    {
        self.parts.given.push(Given { name, value })?;
        self.waiting = None;
        Ok(())
    }

    fn keep(&mut self, word: &'a str) -> Result<(), AllocError>
        ensures { OnOk result (reading_of self.new
            ≡ with_plain word.entry.now (reading_of self.old)) }
    {
        self.parts.plain.push(word)?;
        Ok(())
    }

    fn set_option(&mut self, option: Spelling<'a>) -> Result<(), AllocError>
        ensures { OnOk result (reading_of self.new
            ≡ with_option (spelled_in option.entry) (reading_of self.old)) }
    {
        match option.value {
            Some(value) => self.give(option.name, value),
            None => {
                self.waiting = Some(option.name);
                Ok(())
            }
        }
    }

    fn meet_option(&mut self, names: &[&str], option: Spelling<'a>) -> Result<(), SettingsFault>
        ensures read { OnOk result (option_met (map (λ n. n.now) names.now) (reading_of self.old)
            (spelled_in option.entry) ≡ Some (reading_of self.new)) }
        ensures usage { result ≡ Err SettingsFault.Usage
            → option_met (map (λ n. n.now) names.now) (reading_of self.old)
            (spelled_in option.entry) ≡ None }
    {
        if !is_among(names, option.name) {
            return Err(SettingsFault::Usage);
        }
        if is_given(self.parts.given.as_slice(), option.name) {
            return Err(SettingsFault::Usage);
        }
        Ok(self.set_option(option)?)
    }

    fn meet_flag(&mut self, names: &[&str], word: &'a str) -> Result<(), SettingsFault>
        ensures read { OnOk result (option_and_then (option_met (map (λ n. n.now) names.now)
            (reading_of self.old)) (spelled word.entry.now) ≡ Some (reading_of self.new)) }
        ensures usage { result ≡ Err SettingsFault.Usage
            → option_and_then (option_met (map (λ n. n.now) names.now) (reading_of self.old))
            (spelled word.entry.now) ≡ None }
    {
        match option_word(word) {
            Some(option) => self.meet_option(names, option),
            None => Err(SettingsFault::Usage),
        }
    }

    fn meet_word(&mut self, names: &[&str], word: &'a str) -> Result<(), SettingsFault>
        ensures read { OnOk result (word_met (map (λ n. n.now) names.now) (reading_of self.old)
            word.entry.now ≡ Some (reading_of self.new)) }
        ensures usage { result ≡ Err SettingsFault.Usage
            → word_met (map (λ n. n.now) names.now) (reading_of self.old) word.entry.now ≡ None }
    {
        if word == "--" {
            self.is_closed = true;
            return Ok(());
        }
        if is_flag(word) {
            return self.meet_flag(names, word);
        }
        Ok(self.keep(word)?)
    }

    fn meet_value(&mut self, name: &'a str, word: &'a str) -> Result<(), SettingsFault>
        ensures read { OnOk result (value_met name.entry.now (reading_of self.old) word.entry.now
            ≡ Some (reading_of self.new)) }
        ensures usage { result ≡ Err SettingsFault.Usage
            → value_met name.entry.now (reading_of self.old) word.entry.now ≡ None }
    {
        if is_flag(word) {
            return Err(SettingsFault::Usage);
        }
        Ok(self.give(name, word)?)
    }

    fn step(&mut self, names: &[&str], word: &'a str) -> Result<(), SettingsFault>
        ensures read { OnOk result (with_word (map (λ n. n.now) names.now) (reading_of self.old)
            word.entry.now ≡ Some (reading_of self.new)) }
        ensures usage { result ≡ Err SettingsFault.Usage
            → with_word (map (λ n. n.now) names.now) (reading_of self.old) word.entry.now ≡ None }
    {
        if let Some(name) = self.waiting {
            return self.meet_value(name, word);
        }
        if self.is_closed {
            return Ok(self.keep(word)?);
        }
        self.meet_word(names, word)
    }
}

fn walked<'a>(
    alloc: Global,
    names: &[&str],
    words: &'a [String],
) -> Result<Reader<'a>, SettingsFault>
    ensures read { IfOk result (λ r. with_words (map (λ n. n.now) names.now) nothing_read
        (map string_bytes words.entry.now) ≡ Some (reading_of r)) }
    ensures usage { result ≡ Err SettingsFault.Usage → with_words (map (λ n. n.now) names.now) nothing_read
        (map string_bytes words.entry.now) ≡ None }
{
    let mut reader = Reader::new(alloc)?;
    let mut rest = words;
    while let [word, after @ ..] = rest {
        reader.step(names, word.as_str())?;
        rest = after;
    }
    Ok(reader)
}

// Whether these are words of a command with options of these names.
fn check(alloc: Global, names: &[&str], words: &[String]) -> Result<(), SettingsFault>
    ensures taken { OnOk result (is_some (said_by_words (map (λ n. n.now) names.now)
        (map string_bytes words.now)) ≡ true) }
    ensures usage { result ≡ Err SettingsFault.Usage
        → said_by_words (map (λ n. n.now) names.now) (map string_bytes words.now) ≡ None }
{
    let reader = walked(alloc, names, words)?;
    match reader.waiting {
        Some(_) => Err(SettingsFault::Usage),
        None => Ok(()),
    }
}

// Reads words that are a command's with clap.
fn parsed<'a>(
    alloc: Global,
    names: &'a [&'a str],
    words: &'a [String],
) -> Result<Parts<'a>, SettingsFault>
    requires free { IsFree (map (λ n. n.now) names.now) }
    ensures read { IfOk result (λ p. (s : Said) → said_by_words (map (λ n. n.now) names.entry.now)
        (map string_bytes words.entry.now) ≡ Some s → said_in p ≡ s) }
    ensures fault { IfErr result (λ e. (s : Said) → said_by_words (map (λ n. n.now) names.entry.now)
        (map string_bytes words.entry.now) ≡ Some s → e ≡ SettingsFault.Memory) }
{
    let found = matches(alloc, names, words)?;
    Ok(gathered(alloc, names, &found)?)
}

/// Reads the words of a command with options of these names. The walk decides whether they are
/// its words, and clap reads them.
pub(crate) fn read<'a>(
    alloc: Global,
    names: &'a [&'a str],
    words: &'a [String],
) -> Result<Parts<'a>, SettingsFault>
    requires free { IsFree (map (λ n. n.now) names.now) }
    ensures read { IfOk result (λ p. said_by_words (map (λ n. n.now) names.entry.now)
        (map string_bytes words.entry.now) ≡ Some (said_in p)) }
    ensures usage { result ≡ Err SettingsFault.Usage → said_by_words (map (λ n. n.now) names.entry.now)
        (map string_bytes words.entry.now) ≡ None }
{
    check(alloc, names, words)?;
    parsed(alloc, names, words)
}
