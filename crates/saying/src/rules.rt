// The rules of docs/RULES.md, "Refusals": their names, and what to do about each.
use crate::{say, say_word};
use files::Word;
use refusals::Refusal;

const RULES: [Refusal; 13] = [
    Refusal::Short,
    Refusal::Trailer,
    Refusal::Length,
    Refusal::Header,
    Refusal::Field,
    Refusal::Reserved,
    Refusal::Plan,
    Refusal::Ticket,
    Refusal::Run,
    Refusal::Rows,
    Refusal::Sample,
    Refusal::Room,
    Refusal::Method,
];

// The rule of this number, where it is one's.
pub fn rule_of(number: u8) -> Option<Refusal> {
    RULES.into_iter().find(|rule| rule.number() == number)
}

pub(crate) fn name_of(rule: Refusal) -> &'static str {
    match rule {
        Refusal::Short => "short",
        Refusal::Trailer => "trailer",
        Refusal::Length => "length",
        Refusal::Header => "header",
        Refusal::Field => "field",
        Refusal::Reserved => "reserved",
        Refusal::Plan => "plan",
        Refusal::Ticket => "ticket",
        Refusal::Run => "run",
        Refusal::Rows => "rows",
        Refusal::Sample => "sample",
        Refusal::Room => "room",
        Refusal::Method => "method",
    }
}

// What to do about a refusal, which ends the line about it.
pub fn advice_of(rule: Refusal) -> &'static str {
    match rule {
        Refusal::Short => "hand over the whole block, up to its last byte",
        Refusal::Trailer => "this is no composing block, or one of a later version",
        Refusal::Length => "the block was cut or joined wrongly: ask the sender",
        Refusal::Header => "a picture or a profile that this composer does not do",
        Refusal::Field => "the block's maker has a fault: tell them the field and the byte",
        Refusal::Reserved => "not given",
        Refusal::Plan => "use a plan as reading gave it, or keep to the ranges of a block",
        Refusal::Ticket => "a late job of another picture: drop it",
        Refusal::Run => "hand over whole pictures of this size",
        Refusal::Rows => "name row pairs of this picture",
        Refusal::Sample => "the decoder handed over a broken picture",
        Refusal::Room => "lend a slice of the block's length or more",
        Refusal::Method => "compose this plan without a table",
    }
}

// The begin of the line about a refused file, which the word names: what was found comes next, and then the advice.
pub fn say_refused(word: Word, rule: Refusal) {
    say_word(word);
    say!(word.rt; ": refused {} ({})", rule.number(), name_of(rule));
}

// All rules, one a line.
pub fn say_rules(rt: &HostRuntime) {
    for rule in RULES {
        say!(rt; "{} {}: {}\n", rule.number(), name_of(rule), advice_of(rule));
    }
}
