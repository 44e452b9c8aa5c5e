ghost use Rattle.std.specs.Prelude.{◌≡◌, ◌≤◌, IfOk, IfErr, OnErr, OnOk};
ghost use Rattle.blob_source.specs.Source.{GrowsAt, bytes_of, greatest_count};
ghost use Rattle.remote.specs.Line.{line_value};
ghost use Rattle.remote.specs.Remote.{LooksUp};
ghost use Rattle.remote.specs.Steps.{KeepsAnswer, KeepsBytes, KeepsNothing};
ghost use Rattle.remote.specs.Table.{KeepsAnswers, told_by};

use crate::line::Line;
use crate::stream::Stream;
use crate::table::Table;
use blob_digest::Digest;
use blob_source::FetchError;
use http_core::Area;
use std::alloc::{AllocError, Allocator};

/// Answers from the table, or else asks the server and keeps its answer.
pub(crate) fn look_up<S: Stream + Drop, A: Allocator + Copy>(
    alloc: A,
    line: &mut Line<S, A>,
    table: &mut Table<A>,
    area: Area,
    digest: &Digest,
) -> Result<Option<Vec<u8, A>>, FetchError>
    ensures told { IfOk result (λ answer. bytes_of answer ≡ told_by table.new digest.now) }
    ensures grows { GrowsAt digest.now (told_by table.old) (told_by table.new) }
    ensures looked { LooksUp area digest.now (line_value S.flow line.old)
        (line_value S.flow line.new) table.old table.new result }
    ensures risen { line.old.failures ≤ line.new.failures }
    ensures bounded { line.new.failures ≤ greatest_count }
{
    let _count = line.failures;
    if table.has(digest) {
        return match table.copied(alloc, digest) {
            Ok(answer) => Ok(answer),
            Err(_) => Err(line.starve()),
        };
    }
    let answer = line.get(alloc, area, digest)?;
    match keep_answer(alloc, table, digest, &answer) {
        Ok(()) => Ok(answer),
        Err(_) => Err(line.starve()),
    }
}

/// Keeps a copy of an answer.
pub(crate) fn keep_answer<A: Allocator + Copy>(
    alloc: A,
    table: &mut Table<A>,
    digest: &Digest,
    answer: &Option<Vec<u8, A>>,
) -> Result<(), AllocError>
    ensures ok { OnOk result (KeepsAnswer table.old table.new digest.now (bytes_of answer.now)) }
    ensures err { OnErr result (KeepsAnswers table.old table.new) }
{
    match answer {
        None => table.keep(digest, None),
        Some(bytes) => {
            let copy = Vec::from_slice(alloc, bytes)?;
            table.keep(digest, Some(copy))
        }
    }
}

/// Keeps a copy of bytes that were put.
pub(crate) fn keep_bytes<S: Stream + Drop, A: Allocator + Copy>(
    alloc: A,
    line: &mut Line<S, A>,
    table: &mut Table<A>,
    digest: &Digest,
    bytes: &[u8],
) -> Result<(), FetchError>
    ensures ok { OnOk result (KeepsBytes table.old table.new (line_value S.flow line.old)
        (line_value S.flow line.new) digest.now bytes.now) }
    ensures err { IfErr result (KeepsNothing table.old table.new (line_value S.flow line.old)
        (line_value S.flow line.new)) }
{
    let Ok(copy) = Vec::from_slice(alloc, bytes) else {
        return Err(line.starve());
    };
    match table.keep(digest, Some(copy)) {
        Ok(()) => Ok(()),
        Err(_) => Err(line.starve()),
    }
}
