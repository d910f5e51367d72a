// Why calls are refused: the rules, and the owners that are reported.
ghost use Rattle.std.specs.Prelude.{◌≡◌, Option, MatchOption, MatchResult};
ghost use Rattle.world_model.specs.Names as names;
ghost use Rattle.world_model.specs.declared.rule.Rule.{Rule};
ghost use Rattle.world_event_text.specs.CallText.{text_of_rule};
ghost use Rattle.report_identities.specs.inside.Reading.{IsOwner, IsReason, MayRefuseOwner};
ghost use Rattle.report_identities.specs.inside.Rules.{words_of};

use crate::cuts::{before_words, behind_words, split_before};
use crate::fault::IdentityFault;
use crate::processes::read_pid;
use std::alloc::Global;
use std::str;
use term_core::Pid;
use world_model::rule::Rule;

// The rule of this number and this name, if there is one.
fn rule_of(words: &str) -> Option<Rule>
    ensures { MatchOption result ((rule : Rule) → words.now ≡ words_of rule → ⊥) (λ rule. words.now ≡ words_of rule) }
{
    match words {
        "1 BadTable" => Some(Rule::BadTable),
        "2 NoTable" => Some(Rule::NoTable),
        "3 PrivateRead" => Some(Rule::PrivateRead),
        "4 PrivateWrite" => Some(Rule::PrivateWrite),
        "5 ProtectedWrite" => Some(Rule::ProtectedWrite),
        "6 NotOwner" => Some(Rule::NotOwner),
        "7 BadName" => Some(Rule::BadName),
        "8 BadOption" => Some(Rule::BadOption),
        "9 NameTaken" => Some(Rule::NameTaken),
        "10 NotObject" => Some(Rule::NotObject),
        "11 ShortObject" => Some(Rule::ShortObject),
        "12 BadPosition" => Some(Rule::BadPosition),
        "13 NoKey" => Some(Rule::NoKey),
        "14 NotInteger" => Some(Rule::NotInteger),
        "15 BagRefused" => Some(Rule::BagRefused),
        "16 DeadTarget" => Some(Rule::DeadTarget),
        "17 OwnTarget" => Some(Rule::OwnTarget),
        "18 BadItem" => Some(Rule::BadItem),
        "19 CounterRange" => Some(Rule::CounterRange),
        _ => None,
    }
}

// The rule with this text, if there is one.
fn read_rule(text: &[u8]) -> Option<Rule>
    ensures { MatchOption result ((rule : Rule) → text.now ≡ text_of_rule rule → ⊥) (λ rule. text.now ≡ text_of_rule rule) }
{
    let Ok(words) = str::from_utf8(text) else {
        return None;
    };
    rule_of(words)
}

// Reads the owner of a table after a rule, where one is reported.
fn read_owner(alloc: Global, text: &[u8]) -> Result<Option<Pid>, IdentityFault>
    ensures { MatchResult result (λ told. IsOwner text.now told) (λ fault. MayRefuseOwner text.now fault) }
{
    if text.is_empty() {
        return Ok(None);
    }
    let Some(word) = behind_words(text, b", owner ") else {
        return Err(IdentityFault::BadIdentity);
    };
    let owner = read_pid(alloc, word)?;
    Ok(Some(owner))
}

/// Reads a rule, the owner of the table where one is reported, and the last bracket.
pub(crate) fn read_reason(alloc: Global, text: &[u8]) -> Result<(Rule, Option<Pid>), IdentityFault>
    ensures { MatchResult result
        (λ read. IsReason text.now read.0 read.1)
        (λ fault. (rule : Rule) (told : Option names.Pid) → IsReason text.now rule told → fault ≡ IdentityFault.Memory) }
{
    let Some(inside) = before_words(text, b")") else {
        return Err(IdentityFault::BadIdentity);
    };
    let (word, rest) = split_before(inside, b',');
    let Some(rule) = read_rule(word) else {
        return Err(IdentityFault::BadIdentity);
    };
    let owner = read_owner(alloc, rest)?;
    Ok((rule, owner))
}
