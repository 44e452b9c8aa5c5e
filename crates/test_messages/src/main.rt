//! Rows of digests, messages, stores, trees and plans, each from a file with what it comes to by
//! another implementation or by the documents. It prints of each file how many rows come to what
//! they say, with each request for memory refused in turn, and else the first that doesn't.
#![tactic(auto)]

mod answers;
mod blobs;
mod caches;
mod digests;
mod entries;
mod fields;
mod flat_trees;
mod held;
mod long_fields;
mod long_plans;
mod merges;
mod nodes;
mod outcomes;
mod parts;
mod paths;
mod plans;
mod shapes;
mod sources;
mod trees;
mod written;

use answers::{Answer, Broken, compared, word};
use held::{Held, held_by};
use std::alloc::{Allocator, Global};
use std::hash::RandomState;
use std::{fs, io};
use test_support::{Refusing, Row, read_groups};

/// What the rows of a file are of.
#[derive(Clone, Copy)]
pub enum Subject {
    Digests,
    Fields,
    Shapes,
    Messages,
    Results,
    Parts,
    LongFields,
    Paths,
    Plans,
    LongPlans,
    Sources,
    Trees,
    FlatTrees,
    Outcomes,
    Entries,
    Blobs,
    Caches,
}

/// Each file, how far apart the requests for memory are that are refused, and fewer than are.
static FILES: [(&str, Subject, u64, u64); 23] = [
    ("digests", Subject::Digests, 1, 10),
    ("fields", Subject::Fields, 1, 20),
    ("shapes", Subject::Shapes, 1, 20),
    ("long_messages", Subject::Shapes, 1, 10),
    ("messages", Subject::Messages, 1, 183),
    ("action_messages", Subject::Messages, 1, 100),
    ("action_results", Subject::Results, 1, 100),
    ("results", Subject::Results, 1, 60),
    ("parts", Subject::Parts, 1, 60),
    ("long_fields", Subject::LongFields, 5003, 30),
    ("paths", Subject::Paths, 1, 20),
    ("plans", Subject::Plans, 1, 300),
    ("long_plans", Subject::LongPlans, 30_011, 8),
    ("sources", Subject::Sources, 1, 20),
    ("trees", Subject::Trees, 1, 160),
    ("deep_trees", Subject::Trees, 7, 100),
    ("flat_trees", Subject::FlatTrees, 1, 40),
    ("outcomes", Subject::Outcomes, 1, 40),
    ("entries", Subject::Entries, 1, 24),
    ("many_entries", Subject::Entries, 31, 50),
    ("blobs", Subject::Blobs, 1, 12),
    ("large_blobs", Subject::Blobs, 7, 5),
    ("caches", Subject::Caches, 1, 30),
];

/// What a row comes to by itself.
fn answer<A: Allocator + Copy>(
    subject: Subject,
    global: Global,
    alloc: A,
    fields: &[Vec<u8>],
) -> Answer {
    match subject {
        Subject::Digests => digests::answer(global, alloc, fields),
        Subject::Fields => fields::answer(global, alloc, fields),
        Subject::Shapes => shapes::answer(global, alloc, fields),
        Subject::Messages | Subject::Results => written::answer(global, alloc, fields),
        Subject::Parts => parts::answer(global, alloc, fields),
        Subject::LongFields => long_fields::answer(global, alloc, fields),
        Subject::Paths => paths::answer(global, alloc, fields),
        Subject::Plans => plans::answer(global, alloc, fields),
        Subject::LongPlans => long_plans::answer(global, alloc, fields),
        _ => Err(Broken::NoRow),
    }
}

/// Whether a row was told of lack of memory, where the rows of the group come, one after another,
/// to what they say. Such a row is asked once more, of what is held then; the source was called
/// more often by then than the rows say.
fn run(
    subject: Subject,
    global: Global,
    state: RandomState,
    heap: &Refusing<Global>,
    group: &[Row],
    noted: &mut Vec<u8>,
) -> Result<bool, Broken> {
    let (mut held, rows) = held_by(subject, heap, state, group)?;
    run_rows(global, heap, &mut held, rows, noted)
}

fn run_rows<'h>(
    global: Global,
    heap: &'h Refusing<Global>,
    held: &mut Held<&'h Refusing<Global>>,
    rows: &[Row],
    noted: &mut Vec<u8>,
) -> Result<bool, Broken> {
    let mut is_told = false;
    for row in rows {
        match run_row(global, heap, held, row, is_told, noted) {
            Ok(told) => is_told = told,
            Err(broken) => return Err(broken),
        }
    }
    Ok(is_told)
}

/// Whether this row or one before it was told of lack of memory.
fn run_row<'h>(
    global: Global,
    heap: &'h Refusing<Global>,
    held: &mut Held<&'h Refusing<Global>>,
    row: &Row,
    was_told: bool,
    noted: &mut Vec<u8>,
) -> Result<bool, Broken> {
    let was_refused = heap.has_refused();
    let told = held::answer(global, heap, held, &row.fields);
    let is_untold = heap.has_refused() && !was_refused && is_spare(row);
    if was_told || !matches!(told, Err(Broken::Memory)) {
        compared(global, row, told, was_told, noted)?;
        return if is_untold {
            Err(Broken::Untold)
        } else {
            Ok(was_told)
        };
    }
    let again = held::answer(global, heap, held, &row.fields);
    compared(global, row, again, true, noted)?;
    Ok(true)
}

/// Whether the row asks a store what takes no memory.
fn is_spare(row: &Row) -> bool {
    match row.fields.first() {
        Some(kind) => matches!(word(kind), "contains" | "peek" | "touch" | "pins" | "get"),
        None => false,
    }
}

/// Whether an answer may stand where a request was refused: a store may do without a table that is
/// smaller, and a result is told as the row says or as out of memory.
fn may_spare(subject: Subject) -> bool {
    matches!(
        subject,
        Subject::Results | Subject::Entries | Subject::Blobs | Subject::Caches
    )
}

/// How many requests for memory of the group, the first and each after so many, are refused in turn
/// and told as such, where its rows come to what they say, the refused one once it is asked again.
fn refused_in_turn(
    subject: Subject,
    global: Global,
    state: RandomState,
    group: &[Row],
    stride: u64,
    noted: &mut Vec<u8>,
) -> Result<u64, Broken> {
    let mut refused = 0u64;
    for turn in 0..1_000_000u64 {
        let number = turn.saturating_mul(stride).saturating_add(1);
        let heap = Refusing::new(global, number);
        let outcome = run(subject, global, state, &heap, group, noted);
        match outcome {
            Ok(_) if !heap.has_refused() => return Ok(refused),
            Ok(false) if may_spare(subject) => {}
            Ok(true) => refused = refused.saturating_add(1),
            Err(Broken::Memory) if heap.has_refused() => refused = refused.saturating_add(1),
            Err(broken) => return Err(broken),
            Ok(false) => return Err(Broken::Untold),
        }
    }
    Err(Broken::Untold)
}

/// How many rows a file has, if all come to what they say and no fewer requests than these are
/// refused.
fn rows_of(
    global: Global,
    state: RandomState,
    text: &str,
    asked: (Subject, u64, u64),
    noted: &mut Vec<u8>,
) -> Result<u64, Broken> {
    let groups = read_groups(global, text)?;
    rows_in(global, state, &groups, asked, noted)
}

fn rows_in(
    global: Global,
    state: RandomState,
    groups: &[Vec<Row>],
    (subject, stride, few): (Subject, u64, u64),
    noted: &mut Vec<u8>,
) -> Result<u64, Broken> {
    let mut rows = 0u64;
    let mut refused = 0u64;
    for group in groups {
        let requests = refused_in_turn(subject, global, state, group, stride, noted)?;
        refused = refused.saturating_add(requests);
        rows = rows.saturating_add(group.len() as u64);
    }
    if refused < few {
        Err(Broken::Untold)
    } else {
        Ok(rows)
    }
}

fn print_told(
    rt: &HostRuntime,
    (file, few): (&str, u64),
    told: Result<u64, Broken>,
    noted: &[u8],
) -> io::Result<()> {
    match told {
        Ok(rows) => println!(rt;
            "{file}: {rows} rows come to what they say, with at least {few} requests refused"
        ),
        Err(Broken::Differs) => {
            let noted = String::from_utf8_lossy(rt.alloc(), noted)?;
            println!(rt; "{file}: not so, but {noted}")
        }
        Err(Broken::Memory) => println!(rt; "{file}: out of memory"),
        Err(Broken::Untold) => println!(rt; "{file}: a refused request isn't told"),
        Err(_) => println!(rt; "{file}: a line is no row"),
    }
}

fn main(rt: HostRuntime) -> io::Result<()> {
    let state = RandomState::new(&rt)?;
    for &(file, subject, stride, few) in &FILES {
        let text = fs::read_to_string(&rt, file)?;
        let mut noted = Vec::new(rt.alloc());
        let asked = (subject, stride, few);
        let told = rows_of(rt.alloc(), state, text.as_str(), asked, &mut noted);
        print_told(&rt, (file, few), told, &noted)?;
    }
    Ok(())
}
