//! Reads the words of the command line.

ghost use Rattle.std.specs.Prelude.{◌≡◌, IfOk, OnOk, IfSome};
ghost use Rattle.std.specs.List.{list_all};
ghost use Rattle.rz_core.specs.Words.{verb_of, places_of, begun, level_of, number_of, address_of, is_name as is_name_of, are_inputs as are_inputs_of, is_among as is_among_of, with_read, with_classes, with_write, with_number, with_address, with_level, with_inputs, inputs_filled, said, filled, form_of};
ghost use Rattle.rz_core.specs.Calls.Planned.{planned, IsFilled, IsPlanOf, IsPlan};

use crate::forms::{
    CHECK, DEBLOAT, DEMO, DISASM, FUNCTIONS, GENERATE, LABEL, Place, REPLAY, REPORT, RUN, TRACE,
};
use crate::plan::{Demand, Plan, Values, Verb, Wanted};
use rz_num::{OutOfMemory, Text};
use rz_paths::Level;
use rz_text::{decimal, hexadecimal};
use std::alloc::Global;

// The verb of this word.
fn read_verb(word: &Text) -> Option<Verb>
    ensures { result ≡ verb_of word.now }
{
    match word.as_slice() {
        "debloat" => Some(Verb::Debloat),
        "check" => Some(Verb::Check),
        "disasm" => Some(Verb::Disasm),
        "gen" => Some(Verb::Generate),
        "run" => Some(Verb::Run),
        "trace" => Some(Verb::Trace),
        "replay" => Some(Verb::Replay),
        "report" => Some(Verb::Report),
        "demo" => Some(Verb::Demo),
        "functions" => Some(Verb::Functions),
        "label" => Some(Verb::Label),
        _ => None,
    }
}

// The places behind a verb.
fn places(verb: Verb) -> &'static [Place]
    ensures { result.now ≡ places_of verb }
{
    match verb {
        Verb::Debloat => &DEBLOAT,
        Verb::Check => &CHECK,
        Verb::Disasm => &DISASM,
        Verb::Generate => &GENERATE,
        Verb::Run => &RUN,
        Verb::Trace => &TRACE,
        Verb::Replay => &REPLAY,
        Verb::Report => &REPORT,
        Verb::Demo => &DEMO,
        Verb::Functions => &FUNCTIONS,
        Verb::Label => &LABEL,
    }
}

fn is_name(word: &Text) -> bool
    ensures { result ≡ is_name_of word.now }
{
    1 <= word.as_slice().len()
}

// Adds a file that is read.
fn add_read(
    alloc: Global,
    word: &Text,
    demand: Demand,
    plan: &mut Plan,
) -> Result<bool, OutOfMemory>
    ensures { IfOk result (IsFilled (with_read word.now demand (planned plan.old)) (planned plan.new)) }
{
    if !is_name(word) {
        return Ok(false);
    }
    let name = Text::from_slice(alloc, word.as_slice())?;
    plan.reads.push(Wanted { name, demand })?;
    Ok(true)
}

// Adds a class file that is read, or none for `-`.
fn add_classes(alloc: Global, word: &Text, plan: &mut Plan) -> Result<bool, OutOfMemory>
    ensures { IfOk result (IsFilled (with_classes word.now (planned plan.old)) (planned plan.new)) }
{
    if word.as_slice() == "-" {
        Ok(true)
    } else {
        add_read(alloc, word, Demand::ClassFile, plan)
    }
}

// Whether one of these names is the word.
fn is_among(word: &Text, names: &[Text]) -> bool
    ensures { result ≡ is_among_of word.now names.now }
{
    names.iter().any(|name| name.as_slice() == word.as_slice())
}

// Adds a file that is written.
fn add_write(alloc: Global, word: &Text, plan: &mut Plan) -> Result<bool, OutOfMemory>
    ensures { IfOk result (IsFilled (with_write word.now (planned plan.old)) (planned plan.new)) }
{
    if !is_name(word) || is_among(word, plan.writes.as_slice()) {
        return Ok(false);
    }
    let name = Text::from_slice(alloc, word.as_slice())?;
    plan.writes.push(name)?;
    Ok(true)
}

// A number from 1 to the greatest one.
fn read_number(word: &Text, greatest: u64) -> Option<u64>
    ensures { result ≡ number_of greatest word.now }
{
    match decimal(word.as_slice().as_bytes()) {
        Ok(n) if 1 <= n && n <= greatest => Some(n),
        _ => None,
    }
}

fn set_number(word: &Text, greatest: u64, plan: &mut Plan) -> bool
    ensures { IsFilled (with_number greatest word.now (planned plan.old)) (planned plan.new) result }
{
    match read_number(word, greatest) {
        Some(number) => {
            plan.values.number = number;
            true
        }
        None => false,
    }
}

fn read_address(word: &Text) -> Option<u64>
    ensures { result ≡ address_of word.now }
{
    hexadecimal(word.as_slice().as_bytes()).ok()
}

fn set_address(word: &Text, plan: &mut Plan) -> bool
    ensures { IsFilled (with_address word.now (planned plan.old)) (planned plan.new) result }
{
    match read_address(word) {
        Some(address) => {
            plan.values.address = address;
            true
        }
        None => false,
    }
}

// The level of this name.
fn read_level(word: &Text) -> Option<Level>
    ensures { result ≡ level_of word.now }
{
    match word.as_slice() {
        "exact" => Some(Level::Exact),
        "zcode" => Some(Level::Zcode),
        "zcall" => Some(Level::Zcall),
        "zlib" => Some(Level::Zlib),
        "zfunc" => Some(Level::Zfunc),
        _ => None,
    }
}

fn set_level(word: &Text, plan: &mut Plan) -> bool
    ensures { IsFilled (with_level word.now (planned plan.old)) (planned plan.new) result }
{
    match read_level(word) {
        Some(level) => {
            plan.values.level = level;
            true
        }
        None => false,
    }
}

// Adds what one word says at its place.
fn say(alloc: Global, place: Place, word: &Text, plan: &mut Plan) -> Result<bool, OutOfMemory>
    ensures { IfOk result (IsFilled (said place word.now (planned plan.old)) (planned plan.new)) }
{
    match place {
        Place::Read(demand) => add_read(alloc, word, demand, plan),
        Place::Classes => add_classes(alloc, word, plan),
        Place::Write => add_write(alloc, word, plan),
        Place::Number(greatest) => Ok(set_number(word, greatest, plan)),
        Place::Address => Ok(set_address(word, plan)),
        Place::Level => Ok(set_level(word, plan)),
        Place::Inputs => Ok(false),
    }
}

fn all_names(words: &[Text]) -> bool
    ensures { result ≡ list_all is_name_of words.now }
{
    words.iter().all(|word| is_name(word))
}

// From 1 to 1024 names.
fn are_inputs(words: &[Text]) -> bool
    ensures { result ≡ are_inputs_of words.now }
{
    1 <= words.len() && words.len() <= 1024 && all_names(words)
}

fn add_inputs(alloc: Global, words: &[Text], plan: &mut Plan) -> Result<(), OutOfMemory>
    ensures { OnOk result (planned plan.new ≡ with_inputs words.now (planned plan.old)) }
{
    for word in words.iter() {
        let name = Text::from_slice(alloc, word.as_slice())?;
        plan.reads.push(Wanted {
            name,
            demand: Demand::Input,
        })?;
    }
    Ok(())
}

fn fill_inputs(alloc: Global, words: &[Text], plan: &mut Plan) -> Result<bool, OutOfMemory>
    ensures { IfOk result (IsFilled (inputs_filled words.now (planned plan.old)) (planned plan.new)) }
{
    if !are_inputs(words) {
        return Ok(false);
    }
    add_inputs(alloc, words, plan)?;
    Ok(true)
}

// Adds what the words say at these places.
fn fill(
    alloc: Global,
    places: &[Place],
    words: &[Text],
    plan: &mut Plan,
) -> Result<bool, OutOfMemory>
    ensures { IfOk result (IsFilled (filled places.now words.now (planned plan.old)) (planned plan.new)) }
{
    match places {
        [] => Ok(words.is_empty()),
        [Place::Inputs, ..] => fill_inputs(alloc, words, plan),
        [place, places @ ..] => match words {
            [] => Ok(false),
            [word, words @ ..] => {
                if say(alloc, *place, word, plan)? {
                    fill(alloc, places, words, plan)
                } else {
                    Ok(false)
                }
            }
        },
    }
}

// The plan of a verb before the first word behind it.
fn begin(alloc: Global, verb: Verb) -> Plan
    ensures { planned result ≡ begun verb }
{
    Plan {
        verb,
        values: Values {
            number: 0,
            address: 0,
            level: Level::Exact,
        },
        reads: Vec::new(alloc),
        writes: Vec::new(alloc),
    }
}

// The plan that the words behind a verb make, if they are of its form.
fn plan_of(alloc: Global, verb: Verb, words: &[Text]) -> Result<Option<Plan>, OutOfMemory>
    ensures form { IfOk result (IsPlanOf (filled (places_of verb) words.now (begun verb))) }
    ensures sound { IfOk result (λ plan. IfSome plan IsPlan) }
{
    let mut plan = begin(alloc, verb);
    if fill(alloc, places(verb), words, &mut plan)? {
        Ok(Some(plan))
    } else {
        Ok(None)
    }
}

/// The plan of the form that the words have, if any.
pub fn read_plan(alloc: Global, words: &Vec<Text>) -> Result<Option<Plan>, OutOfMemory>
    ensures form { IfOk result (IsPlanOf (form_of words.now.items)) }
    ensures sound { IfOk result (λ plan. IfSome plan IsPlan) }
{
    match words.as_slice() {
        [] => Ok(None),
        [word, words @ ..] => match read_verb(word) {
            None => Ok(None),
            Some(verb) => plan_of(alloc, verb, words),
        },
    }
}
