//! The words that say why something is refused, and what was asked.
ghost use Rattle.std.specs.Prelude.{◌≡◌, ◌++◌, OnOk};
ghost use Rattle.cells_script.specs.Telling.{CanTellDenial, CanTellRule};
ghost use Rattle.cells_script.specs.Texts.{behind, how_text, question_words, reason_words, rule_words};

use crate::word::{Word, lease_word, put_words};
use claim_types::{Denial, How, NoMemory, Question, Rule};

fn how_name(how: How) -> &'static str
    ensures { result.now ≡ how_text how }
{
    match how {
        How::Committed => "committed",
        How::RolledBack => "rolled back",
    }
}

// Writes why a lease is refused.
pub fn put_reason(out: &mut Vec<u8>, denial: &Denial) -> Result<(), NoMemory>
    requires { CanTellDenial denial.now }
    ensures { OnOk result (out.new.items ≡ out.old.items ++ behind (reason_words denial.now)) }
{
    match denial {
        Denial::Settled { how } => put_words(
            out,
            &[Word::Name("settled"), Word::Name(how_name(*how))],
        ),
        Denial::OtherOperations => put_words(out, &[Word::Name("other operations")]),
        Denial::NoneOrTooMany { n } => put_words(out, &[Word::Name("count"), Word::Number(*n)]),
        Denial::Twice { key } => put_words(out, &[Word::Name("twice"), Word::Key(key)]),
        Denial::ForeignId { id } => put_words(out, &[Word::Name("foreign id"), Word::Number(*id)]),
        Denial::TooManyOpen => put_words(out, &[Word::Name("too many open")]),
        Denial::Owned { key, cell } => {
            put_words(
                out,
                &[
                    Word::Name("owned"),
                    Word::Key(key),
                    Word::Number(u64::from(*cell)),
                ],
            )
        }
        Denial::Leased { key, lease } => {
            put_words(
                out,
                &[Word::Name("leased"), Word::Key(key), lease_word(*lease)],
            )
        }
        Denial::NotOwned { key } => put_words(out, &[Word::Name("not owned"), Word::Key(key)]),
    }
}

// Writes why a change is refused.
pub fn put_rule(out: &mut Vec<u8>, rule: &Rule) -> Result<(), NoMemory>
    requires { CanTellRule rule.now }
    ensures { OnOk result (out.new.items ≡ out.old.items ++ behind (rule_words rule.now)) }
{
    match rule {
        Rule::NoSuchRecord => put_words(out, &[Word::Name("no-such-record")]),
        Rule::WrongKind => put_words(out, &[Word::Name("wrong-kind")]),
        Rule::BadName => put_words(out, &[Word::Name("bad-name")]),
        Rule::Same => put_words(out, &[Word::Name("same")]),
        Rule::TakenHere { key } => put_words(out, &[Word::Name("taken-here"), Word::Key(key)]),
        Rule::HasChildren => put_words(out, &[Word::Name("has-children")]),
        Rule::TooMany { n } => put_words(out, &[Word::Name("too-many"), Word::Number(*n)]),
        Rule::NoIds => put_words(out, &[Word::Name("no-ids")]),
        Rule::VersionSpent => put_words(out, &[Word::Name("version-spent")]),
        Rule::TooManyRows { n } => put_words(out, &[Word::Name("rows"), Word::Number(*n)]),
        Rule::Memory => unreachable!(),
    }
}

// Writes what was asked.
pub fn put_question(out: &mut Vec<u8>, question: &Question) -> Result<(), NoMemory>
    ensures { OnOk result (out.new.items ≡ out.old.items ++ behind (question_words question.now)) }
{
    match question {
        Question::First => put_words(out, &[Word::Name("first")]),
        Question::Cell { id } => put_words(
            out,
            &[Word::Name("cell"), Word::Number(u64::from(*id))],
        ),
        Question::Session { text } => put_words(
            out,
            &[Word::Name("session"), Word::Bytes(text.as_slice())],
        ),
        Question::Claim { key } => put_words(out, &[Word::Name("claim"), Word::Key(key)]),
        Question::Path { text } => put_words(
            out,
            &[Word::Name("path"), Word::Bytes(text.as_slice())],
        ),
    }
}
