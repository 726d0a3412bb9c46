//! A program for measuring: builds 300,000 keys and does with them what its first word says. Whoever runs it takes the processor
//! time, and subtracts that of a run that only builds the keys. Where that word is `growths`, it makes each call over a few keys,
//! and ends with 0 where the answers are right, with 1 where one isn't, and with 5 where it was refused memory.
#![tactic(auto)]

mod growths;

use lq_lookup::{Groups, Lookup, Nulls, stable_order};
use lq_value::{Key, List, Scalar, Txt};
use std::alloc::{AllocError, Global};
use std::process::ExitCode;
use std::{env, io};

/// How many keys are built.
const COUNT: u32 = 300_000;

/// A prime above that count, so that multiplying by a number and taking the rest distinguishes the keys.
const PRIME: u32 = 300_007;

// A scattered number below the prime, another one for each place.
fn scattered(place: u32) -> u32 {
    (place % PRIME).wrapping_mul(7_919) % PRIME
}

fn text(alloc: Global, number: u32) -> Result<Txt, AllocError> {
    Ok(Txt::from_string(format!(in alloc; "{number:012}")?))
}

fn int(number: u32) -> i32 {
    (number % PRIME) as i32
}

fn int_keys(alloc: Global, kinds: u32) -> Result<Vec<Key>, AllocError> {
    let mut keys = Vec::with_capacity(alloc, COUNT as usize)?;
    for place in 0..COUNT {
        let number = if kinds == 0 {
            scattered(place)
        } else {
            scattered(place) % kinds
        };
        keys.push(Key::Int(int(number)))?;
    }
    Ok(keys)
}

fn text_keys(alloc: Global) -> Result<Vec<Key>, AllocError> {
    let mut keys = Vec::with_capacity(alloc, COUNT as usize)?;
    for place in 0..COUNT {
        keys.push(Key::Text(text(alloc, scattered(place))?))?;
    }
    Ok(keys)
}

// The first key of a list: a text, an int, or one of a thousand ints.
fn first_key(alloc: Global, subject: &str, number: u32) -> Result<Scalar, AllocError> {
    match subject {
        "text_order" => Ok(Scalar::Text(text(alloc, number)?)),
        "int_order" => Ok(Scalar::Int(int(number))),
        _ => Ok(Scalar::Int(int(number % 1_000))),
    }
}

// A list of keys: a text, an int, or two ints of which the first is one of a thousand.
fn list(alloc: Global, subject: &str, number: u32) -> Result<List<Scalar>, AllocError> {
    let mut list = List::new(alloc);
    list.push(first_key(alloc, subject, number)?)?;
    if subject == "two_order" {
        list.push(Scalar::Int(int(number)))?;
    }
    Ok(list)
}

fn lists(alloc: Global, subject: &str) -> Result<Vec<List<Scalar>>, AllocError> {
    let mut lists = Vec::with_capacity(alloc, COUNT as usize)?;
    for place in 0..COUNT {
        lists.push(list(alloc, subject, scattered(place))?)?;
    }
    Ok(lists)
}

// How many places are found for all keys.
fn count_found(lookup: &Lookup, keys: &[Key]) -> usize {
    let mut count: usize = 0;
    for key in keys {
        count = count.wrapping_add(lookup.find(key).len());
    }
    count
}

// How many places a lookup finds for the first key, or for all.
fn count_finds(lookup: &Lookup, keys: &[Key], what: &str) -> usize {
    match keys {
        [first, ..] if what == "build" => lookup.find(first).len(),
        _ => count_found(lookup, keys),
    }
}

fn looked_up(alloc: Global, keys: &[Key], what: &str) -> Result<usize, AllocError> {
    if what == "make" {
        return Ok(keys.len());
    }
    let lookup = Lookup::build(alloc, keys, Nulls::Keep)?;
    Ok(count_finds(&lookup, keys, what))
}

fn grouped(alloc: Global, keys: &[Key], what: &str) -> Result<usize, AllocError> {
    if what == "make" {
        return Ok(keys.len());
    }
    let groups = Groups::build(alloc, keys)?;
    Ok(groups.len())
}

fn ordered(
    alloc: Global,
    lists: &[List<Scalar>],
    subject: &str,
    what: &str,
) -> Result<usize, AllocError> {
    if what == "make" {
        return Ok(lists.len());
    }
    let descending: &[bool] = if subject == "two_order" {
        &[false, true]
    } else {
        &[false]
    };
    let places = stable_order(alloc, lists, descending)?;
    Ok(places.len())
}

fn ints_done(alloc: Global, what: &str) -> Result<usize, AllocError> {
    let keys = int_keys(alloc, 0)?;
    looked_up(alloc, keys.as_slice(), what)
}

fn texts_done(alloc: Global, what: &str) -> Result<usize, AllocError> {
    let keys = text_keys(alloc)?;
    looked_up(alloc, keys.as_slice(), what)
}

fn groups_done(alloc: Global, what: &str) -> Result<usize, AllocError> {
    let keys = int_keys(alloc, 1_000)?;
    grouped(alloc, keys.as_slice(), what)
}

fn orders_done(alloc: Global, subject: &str, what: &str) -> Result<usize, AllocError> {
    let lists = lists(alloc, subject)?;
    ordered(alloc, lists.as_slice(), subject, what)
}

fn measure(alloc: Global, subject: &str, what: &str) -> Result<usize, AllocError> {
    match subject {
        "ints" => ints_done(alloc, what),
        "texts" => texts_done(alloc, what),
        "groups" => groups_done(alloc, what),
        _ => orders_done(alloc, subject, what),
    }
}

// Does what the words say, and answers whether all is right.
fn is_right(alloc: Global, subject: &str, what: &str) -> Result<bool, AllocError> {
    if subject == "growths" {
        return growths::right(alloc);
    }
    let _ = measure(alloc, subject, what)?;
    Ok(true)
}

fn run(rt: &HostRuntime) -> io::Result<bool> {
    let mut words = env::args(rt)?;
    let _ = words.next();
    match (words.next(), words.next()) {
        (Some(subject), Some(what)) => Ok(is_right(rt.alloc(), &subject, &what)?),
        _ => Ok(true),
    }
}

fn main(rt: HostRuntime) -> ExitCode {
    match run(&rt) {
        Ok(true) => ExitCode::SUCCESS,
        Ok(false) => ExitCode::FAILURE,
        Err(_) => ExitCode::from(5),
    }
}
