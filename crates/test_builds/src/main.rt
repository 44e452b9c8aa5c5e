//! Rows of whole builds by the engine and by a runner, of the verdicts on them and of the lines
//! that report them, each from a file with what it comes to by another implementation or by the
//! documents. It prints of each file how many rows come to what they say, with each request for
//! memory refused in turn, and else the first that doesn't.
#![tactic(auto)]

mod answers;
mod calls;
mod children;
mod counting;
mod engines;
mod failing;
mod jobs;
mod levels;
mod memos;
mod reports;
mod stock;
mod verdicts;

use answers::{Answer, Broken, compared, is};
use std::alloc::{Allocator, Global};
use std::{fs, io};
use test_support::{Refusing, Row, read_groups};

/// What the rows of a file are of.
#[derive(Clone, Copy)]
enum Subject {
    Reports,
    Openings,
    Engines,
    Jobs,
    Verdicts,
    Levels,
    Children,
    FailingSources,
    FailingBuilds,
}

/// Each file, after the name of another where it has the stock of that; how far apart the requests
/// for memory are that are refused, and fewer than are. Those of 0 refuse none, or don't count
/// them.
static FILES: [(&str, Subject, u64, u64); 14] = [
    ("reports", Subject::Reports, 1, 100),
    ("openings", Subject::Openings, 1, 40),
    ("engines", Subject::Engines, 1, 300),
    ("engines memos", Subject::Engines, 1, 100),
    ("jobs", Subject::Jobs, 0, 0),
    ("roots", Subject::Verdicts, 1, 100),
    ("verdicts", Subject::Verdicts, 1, 1000),
    ("levels", Subject::Levels, 1, 200),
    ("many_lines", Subject::Levels, 7, 500),
    ("children", Subject::Children, 1, 800),
    ("verdicts failing_sources", Subject::FailingSources, 0, 0),
    ("verdicts changed_blobs", Subject::Verdicts, 1, 50),
    ("deep_input", Subject::Verdicts, 1, 100),
    ("children failing_builds", Subject::FailingBuilds, 0, 0),
];

/// What a row comes to by itself, over what its file has in stock.
fn answer<A: Allocator + Copy>(
    subject: Subject,
    global: Global,
    alloc: A,
    stock: &[Row],
    fields: &[Vec<u8>],
) -> Answer {
    match subject {
        Subject::Reports => reports::answer(global, alloc, fields),
        Subject::Openings => engines::opened(global, alloc, stock, fields),
        Subject::Verdicts => match fields.split_last() {
            Some((_, changes)) => verdicts::answer(global, alloc, stock, changes),
            None => Err(Broken::NoRow),
        },
        Subject::Children => children::answer(global, alloc, stock, fields),
        Subject::FailingSources => match fields.split_last() {
            Some((_, changes)) => failing::verdict(global, stock, changes),
            None => Err(Broken::NoRow),
        },
        Subject::FailingBuilds => failing::build(global, stock, fields),
        Subject::Jobs => jobs::answer(global, stock, fields),
        Subject::Engines | Subject::Levels => Err(Broken::NoRow),
    }
}

/// Whether the row names that a refusal may go unheard: that of a child that is waited for after
/// the build was refused.
fn is_unheard(row: &Row) -> bool {
    row.fields.iter().any(|field| is(field, "out unheard"))
}

/// Whether the row comes to what it says.
fn come_to<A: Allocator + Copy>(
    subject: Subject,
    global: Global,
    alloc: A,
    stock: &[Row],
    row: &Row,
    noted: &mut String,
) -> Result<(), Broken> {
    let told = answer(subject, global, alloc, stock, &row.fields)?;
    compared(row, told.as_str(), noted)
}

/// How many requests for memory of the row are refused in turn and told as such, where it comes to
/// what it says.
fn refused_in_turn(
    subject: Subject,
    global: Global,
    stock: &[Row],
    row: &Row,
    noted: &mut String,
) -> Result<u64, Broken> {
    for number in 1..1_000_000u64 {
        let heap = Refusing::new(global, number);
        match come_to(subject, global, &heap, stock, row, noted) {
            Ok(()) if !heap.has_refused() => return Ok(number - 1),
            Ok(()) if is_unheard(row) => {}
            Ok(()) => return Err(Broken::Untold),
            Err(Broken::Memory) if heap.has_refused() => {}
            Err(broken) => return Err(broken),
        }
    }
    Err(Broken::Untold)
}

/// How many requests of the group are refused where its rows come to what they say.
fn refused_in(
    subject: Subject,
    global: Global,
    stock: &[Row],
    group: &[Row],
    stride: u64,
    noted: &mut String,
) -> Result<u64, Broken> {
    match subject {
        Subject::Engines => return engines::run(global, stock, group, noted),
        Subject::Levels => return levels::run(global, group, stride, noted),
        _ => {}
    }
    let mut refused = 0u64;
    for row in group {
        if stride == 0 {
            come_to(subject, global, global, stock, row, noted)?;
        } else {
            let requests = refused_in_turn(subject, global, stock, row, noted)?;
            refused = refused.saturating_add(requests);
        }
    }
    Ok(refused)
}

/// How many rows a file has after its stock, if all come to what they say and no fewer requests
/// than these are refused.
fn rows_of(
    global: Global,
    text: &str,
    asked: (Subject, u64, u64),
    noted: &mut String,
) -> Result<u64, Broken> {
    let groups = read_groups(global, text)?;
    match groups.split_first() {
        Some((stock, groups)) => rows_in(global, stock, groups, asked, noted),
        None => Err(Broken::NoRow),
    }
}

fn rows_in(
    global: Global,
    stock: &[Row],
    groups: &[Vec<Row>],
    (subject, stride, few): (Subject, u64, u64),
    noted: &mut String,
) -> Result<u64, Broken> {
    let mut rows = 0u64;
    let mut refused = 0u64;
    for group in groups {
        let requests = refused_in(subject, global, stock, group, stride, noted)?;
        refused = refused.saturating_add(requests);
        rows = rows.saturating_add(group.len() as u64);
    }
    if refused < few {
        Err(Broken::Untold)
    } else {
        Ok(rows)
    }
}

fn print_told(
    rt: &HostRuntime,
    (file, few): (&str, u64),
    told: Result<u64, Broken>,
    noted: &str,
) -> io::Result<()> {
    match told {
        Ok(rows) if few == 0 => println!(rt; "{file}: {rows} rows come to what they say"),
        Ok(rows) => println!(rt;
            "{file}: {rows} rows come to what they say, with at least {few} requests refused"
        ),
        Err(Broken::Differs) => println!(rt; "{file}: not so, but {noted}"),
        Err(Broken::Memory) => println!(rt; "{file}: out of memory"),
        Err(Broken::Untold) => println!(rt; "{file}: a refused request isn't told"),
        Err(Broken::NoRow) => println!(rt; "{file}: a line is no row"),
    }
}

fn main(rt: HostRuntime) -> io::Result<()> {
    for &(files, subject, stride, few) in &FILES {
        let (stock, file) = files.split_once(' ').unwrap_or(("", files));
        let mut text = String::new(rt.alloc());
        if !stock.is_empty() {
            push_stock(&rt, stock, &mut text)?;
        }
        text.push_str(fs::read_to_string(&rt, file)?.as_str())?;
        let mut noted = String::new(rt.alloc());
        let told = rows_of(
            rt.alloc(),
            text.as_str(),
            (subject, stride, few),
            &mut noted,
        );
        print_told(&rt, (file, few), told, noted.as_str())?;
    }
    Ok(())
}

/// Adds the first paragraph of a file.
fn push_stock(rt: &HostRuntime, file: &str, text: &mut String) -> io::Result<()> {
    let other = fs::read_to_string(rt, file)?;
    if let Some((stock, _)) = other.as_str().split_once("\n\n") {
        text.push_str(stock)?;
        text.push_str("\n\n")?;
    }
    Ok(())
}
