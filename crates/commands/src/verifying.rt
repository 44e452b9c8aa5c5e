ghost use Rattle.std.specs.Prelude.{◌≡◌, ◌∷◌, [], IfErr, IfOk, IfSome, IsFalse, IsTrue};
ghost use Rattle.std.specs.Prelude.{None, OnErr, OnOk, codes, option_map, string_bytes};
ghost use Rattle.std.specs.Io.KnownBytes.{Appends};
ghost use Rattle.clap.specs.Words.{first_of};
ghost use Rattle.command_lines.specs.CommandLine.{option_text};
ghost use Rattle.commands.specs.Ended.{HasOneLine, is_done};
ghost use Rattle.commands.specs.Faults.{OrMemory};
ghost use Rattle.commands.specs.FolderRead.{value_of_read};
ghost use Rattle.commands.specs.Places.{FailsInFolder, FailsOver, IsFresh, IsOfFolder};
ghost use Rattle.commands.specs.Places.{FailsOfParts, IsOfBoth, IsToldByParts, LacksOfBoth};
ghost use Rattle.commands.specs.Places.{IsOfServer, IsAnsweredBy, IsToldOver, LacksAtServer};
ghost use Rattle.commands.specs.Places.{LacksInFolder, LacksIt, LacksOfParts, SeesFiles};
ghost use Rattle.commands.specs.Places.{gets_alone};
ghost use Rattle.commands.specs.Printed.{AsksQuestion, IsNamedPlace, IsOfPlace};
ghost use Rattle.commands.specs.Printed.{JudgesAnswer, LacksAtPlace, LacksFolder, MayHaveFolder};
ghost use Rattle.commands.specs.Printed.{NotesFolder, named_folder};
ghost use Rattle.commands.specs.Refusal.{FailsDigests, FailsAtPlace, FailsPlan, FailsRecord};
ghost use Rattle.commands.specs.Refusal.{FailsOfBoth, FailsServer, FailsToJudge};
ghost use Rattle.commands.specs.Refusal.{HasPlanRead};
ghost use Rattle.commands.specs.Refusal.{IsPrintFault};
ghost use Rattle.commands.specs.Refusal.{IsTextFault};
ghost use Rattle.commands.specs.Told.{AppendsBeginning, PrintsNoLine};
ghost use Rattle.commands.specs.Verified.{AnswersOn};
ghost use Rattle.commands.specs.Words.{IsCheckedBy, IsSaid, IsUsageError, goes_with_server};
ghost use Rattle.commands.specs.Words.{may_name_folder, place_words, server_words};
ghost use Rattle.remote.specs.Remote.{connection_of};
ghost use Rattle.report.specs.Line.{IsOneLine};
ghost use Rattle.text_verifier.specs.Texts.{IsDigestText};

use crate::artifact::FolderRead;
use crate::blobs_and_results::BlobsAndResults;
use crate::client::{Client, GetsAlone, GetsBlobs, Opened, open};
use crate::connecting::{ServerOptions, read_server};
use crate::ended::{Ended, Note};
use crate::error::CommandError;
use crate::folder_store::{FolderMark, FolderStore};
use crate::hint::Hint;
use crate::judgement::Judgement;
use crate::kept_evidence::KeptEvidence;
use crate::noting::{note_of, with_note};
use crate::options::{Options, invalid_value, read_digest, text_for};
use crate::telling::write_bytes;
use crate::world::{FilesOf, Inputs};
use keeping::{Keeping, Kept};
use plan::{Plan, PlanError};
use remote::{FileError, Remote, Stream};
use report::{is_yes, report};
use std::alloc::{AllocError, Global};
use std::io::{ErrorKind, Write};
use std::marker::Brand;
use std::mem;
use text_verifier::{Answer, Case, Digests, Lack, TextError, answer_question, read_plan};
use tree::FetchError;

/// Where the recorded build is.
#[derive(Drop)]
pub(crate) enum RecordedBuild {
    Folder(String),
    Server(ServerOptions),
    /// Its blobs are on the server, and its results in the folder.
    Both(ServerOptions, String),
}

/// The digests that the words spell. That of the sources is read first.
pub(crate) fn typed_digests<M: Options>(alloc: Global, options: &M) -> Result<Digests, CommandError>
    ensures sources { IfOk result (λ digests.
        IsDigestText (option_text (M.rows options.now) (codes "sources"))
        digests.sources) }
    ensures claim { IfOk result (λ digests.
        IsDigestText (option_text (M.rows options.now) (codes "claim")) digests.claim) }
    ensures fault { IfErr result (FailsDigests (M.rows options.now)) }
{
    let sources = read_digest(alloc, options, "sources")?;
    let claim = read_digest(alloc, options, "claim")?;
    Ok(Digests { sources, claim })
}

/// The error of a text that was read at a path, of which a line is at fault so.
fn text_error(alloc: Global, path: &str, text: &[u8], fault: PlanError) -> CommandError
    ensures { OrMemory (IsTextFault path.now text.now fault) result }
{
    match String::from_str(alloc, path) {
        Ok(path) => CommandError::Text {
            path,
            fault,
            hint: Hint::of(text, &fault),
        },
        Err(_) => CommandError::Memory,
    }
}

/// The plan in the file that the words name, whose text is kept.
fn read_kept_plan<W: Inputs, M: Options>(
    alloc: Global,
    world: &W,
    options: &M,
    kept: &mut KeptEvidence,
) -> Result<Plan<Global>, CommandError>
    ensures found { IfOk result (HasPlanRead (W.sees world.now) (M.rows options.now)) }
    ensures fault { IfErr result (FailsPlan (W.sees world.now) (M.rows options.now)) }
{
    let path = text_for(options, "plan");
    let bytes = world.read(alloc, path)?;
    let text = bytes.as_slice();
    kept.keep_text(alloc, "plan", text)?;
    match read_plan(alloc, text) {
        Ok(plan) => Ok(plan),
        Err(TextError::Plan(fault)) => Err(text_error(alloc, path, text, fault)),
        Err(_e) => Err(CommandError::Memory),
    }
}

/// The plan in the file that the words name.
pub fn plan_in_file<W: Inputs, M: Options>(
    alloc: Global,
    world: &W,
    options: &M,
) -> Result<Plan<Global>, CommandError>
    ensures found { IfOk result (HasPlanRead (W.sees world.now) (M.rows options.now)) }
    ensures fault { IfErr result (FailsPlan (W.sees world.now) (M.rows options.now)) }
{
    read_kept_plan(alloc, world, options, &mut KeptEvidence::nothing(alloc))
}

/// What is asked: the digests, the plan, and the record of it in the file that the words name,
/// whose text is kept.
pub(crate) fn read_case<W: Inputs, M: Options>(
    alloc: Global,
    world: &W,
    options: &M,
    digests: Digests,
    plan: Plan<Global>,
    kept: &mut KeptEvidence,
) -> Result<Case<Global>, CommandError>
    requires sources { IsDigestText
        (option_text (M.rows options.now) (codes "sources")) digests.sources }
    requires claim { IsDigestText
        (option_text (M.rows options.now) (codes "claim")) digests.claim }
    requires plan { HasPlanRead (W.sees world.now) (M.rows options.now) plan }
    ensures asks { IfOk result (AsksQuestion (W.sees world.now) (M.rows options.now)) }
    ensures fault { IfErr result (FailsRecord (W.sees world.now) (M.rows options.now)
        plan) }
{
    let path = text_for(options, "record");
    let bytes = world.read(alloc, path)?;
    let text = bytes.as_slice();
    kept.keep_text(alloc, "record", text)?;
    match Case::read(alloc, digests, plan, text) {
        Ok(case) => Ok(case),
        Err(TextError::Record(fault)) => Err(text_error(alloc, path, text, fault)),
        Err(_e) => Err(CommandError::Memory),
    }
}

/// The error of an invalid command line, told in these words.
fn usage_error(alloc: Global, words: &str) -> Result<CommandError, AllocError>
    ensures { IfOk result (IsUsageError words.now) }
{
    Ok(CommandError::Usage(String::from_str(alloc, words)?))
}

/// An option that goes with a server isn't said beside `--store`.
fn check_beside_store<M: Options>(
    alloc: Global,
    options: &M,
    option: &'static str,
) -> Result<(), CommandError>
    requires { IsSaid (M.rows options.now) (codes "store") }
    ensures checked { IsCheckedBy
        (goes_with_server (M.rows options.now) option.now ∷ []) result }
    ensures unsaid { OnOk result (first_of option.now (M.rows options.now) ≡ None) }
{
    if options.text(option).is_none() {
        return Ok(());
    }
    Err(CommandError::Usage(format!(in alloc; "--{option} cannot be used with --store")?))
}

/// A folder for entries has a name, where the option for it is said.
pub(crate) fn check_folder<M: Options>(
    alloc: Global,
    options: &M,
    option: &'static str,
) -> Result<(), CommandError>
    ensures { IsCheckedBy (may_name_folder (M.rows options.now) option.now ∷ [])
        result }
{
    match options.text(option) {
        Some("") => Err(invalid_value(alloc, option, "a folder", "")?),
        _ => Ok(()),
    }
}

/// The server that the words name, with the folder for results, if they name one.
fn read_server_place<M: Options>(alloc: Global, options: &M) -> Result<RecordedBuild, CommandError>
    requires server { IsSaid (M.rows options.now) (codes "server") }
    requires store { first_of (codes "store") (M.rows options.now) ≡ None }
    ensures place { IfOk result (IsNamedPlace (M.rows options.now)) }
    ensures checked { IsCheckedBy (server_words (M.rows options.now)) result }
{
    let server = read_server(alloc, options)?;
    match options.text("results") {
        Some(folder) => Ok(RecordedBuild::Both(server, String::from_str(alloc, folder)?)),
        None => Ok(RecordedBuild::Server(server)),
    }
}

/// Where the words say that the recorded build is: a store folder or a server, and not both.
pub(crate) fn read_place<M: Options>(
    alloc: Global,
    options: &M,
) -> Result<RecordedBuild, CommandError>
    ensures place { IfOk result (IsNamedPlace (M.rows options.now)) }
    ensures checked { IsCheckedBy (place_words (M.rows options.now)) result }
{
    match (options.text("store"), options.text("server")) {
        (Some(folder), None) => {
            check_beside_store(alloc, options, "prefix")?;
            check_beside_store(alloc, options, "timeout")?;
            check_beside_store(alloc, options, "results")?;
            check_folder(alloc, options, "store")?;
            Ok(RecordedBuild::Folder(String::from_str(alloc, folder)?))
        }
        (None, Some(_)) => {
            check_folder(alloc, options, "results")?;
            read_server_place(alloc, options)
        }
        (Some(_), Some(_)) => Err(usage_error(alloc, "--store cannot be used with --server")?),
        (None, None) => Err(usage_error(alloc, "one of --store and --server is required")?),
    }
}

/// The answer over the store in the marked folder.
fn judge_folder<W: Inputs, K: FolderMark>(
    alloc: Global,
    world: &W,
    folder: String,
    case: &Case<Global>,
    told: &mut Kept<Global>,
) -> Result<Answer<Global>, CommandError>
    requires folder { K.folder ≡ string_bytes folder }
    requires sees { SeesFiles (W.sees world.now) K.sees }
    ensures answered { IfOk result
        (IsAnsweredBy (IsOfFolder K.sees K.folder) (LacksInFolder K.sees K.folder) case.now) }
    ensures fault { IfErr result (OrMemory (λ e. ∥ FailsInFolder K.sees K.folder e ∥₁)) }
{
    let files = FilesOf(world);
    let store: FolderStore<'_, W, K> = FolderStore::new(alloc, &files, folder);
    let mut source = Keeping::new(store, mem::replace(told, Kept::nothing(alloc)));
    let answered = answer_question(alloc, case, &mut source);
    let (store, kept) = source.into_parts();
    *told = kept;
    match answered {
        Ok(answer) => {
            if store.confirms(&answer.lack) {
                return Ok(answer);
            }
            Err(store.into_error())
        }
        Err(TextError::Fetch) => Err(store.into_error()),
        Err(_e) => Err(CommandError::Memory),
    }
}

/// Confirms that the server lacks what is missing.
fn confirm_lack<S: Stream + Drop, K: Opened>(
    alloc: Global,
    server: &ServerOptions,
    client: &mut Client<S, K, GetsAlone>,
    lack: &Option<Lack>,
) -> Result<(), CommandError>
    ensures lacked { OnOk result
        (IfSome lack.now (λ lack. ∥ LacksIt gets_alone K.start lack ∥₁)) }
    ensures fault { IfErr result (OrMemory
        (λ e. ∥ FailsOver gets_alone K.start (string_bytes server.now.address) e ∥₁)) }
{
    match lack {
        Some(lack) => client.confirm(alloc, server, lack),
        None => Ok(()),
    }
}

/// The answer over the marked connection.
fn judge_over<S: Stream + Drop, K: Opened>(
    alloc: Global,
    server: &ServerOptions,
    remote: Remote<S, Global>,
    case: &Case<Global>,
    told: &mut Kept<Global>,
) -> Result<Answer<Global>, CommandError>
    requires start { K.start ≡ connection_of S.flow remote }
    requires fresh { IsFresh remote }
    ensures answered { IfOk result
        (IsAnsweredBy (IsToldOver gets_alone K.start) (LacksIt gets_alone K.start) case.now) }
    ensures fault { IfErr result (OrMemory
        (λ e. ∥ FailsOver gets_alone K.start (string_bytes server.now.address) e ∥₁)) }
{
    let client: Client<S, K, GetsAlone> = Client::new(remote);
    let mut source = Keeping::new(client, mem::replace(told, Kept::nothing(alloc)));
    let answered = answer_question(alloc, case, &mut source);
    let (mut client, kept) = source.into_parts();
    *told = kept;
    match answered {
        Ok(answer) => {
            confirm_lack(alloc, server, &mut client, &answer.lack)?;
            Ok(answer)
        }
        Err(TextError::Fetch) => Err(client.error(alloc, server, FetchError::Failed)?),
        Err(_e) => Err(CommandError::Memory),
    }
}

/// The answer over the server.
fn judge_server<W: Inputs>(
    alloc: Global,
    world: &W,
    server: &ServerOptions,
    case: &Case<Global>,
    told: &mut Kept<Global>,
) -> Result<Answer<Global>, CommandError>
    ensures answered { IfOk result
        (IsAnsweredBy (IsOfServer gets_alone (W.sees world.now) server.now)
        (LacksAtServer gets_alone (W.sees world.now) server.now) case.now) }
    ensures fault { IfErr result
        (OrMemory (λ e. ∥ FailsServer gets_alone (W.sees world.now) server.now e ∥₁)) }
{
    let remote = open(alloc, world, server)?;
    judge_over::<W::Link, Brand>(alloc, server, remote, case, told)
}

/// The answer by blobs over the marked connection and results of the marked folder.
fn judge_parts<S: Stream + Drop, K: Opened, W: Inputs, F: FolderMark>(
    alloc: Global,
    world: &W,
    server: &ServerOptions,
    remote: Remote<S, Global>,
    folder: String,
    case: &Case<Global>,
    told: &mut Kept<Global>,
) -> Result<Answer<Global>, CommandError>
    requires start { K.start ≡ connection_of S.flow remote }
    requires fresh { IsFresh remote }
    requires folder { F.folder ≡ string_bytes folder }
    requires sees { SeesFiles (W.sees world.now) F.sees }
    ensures answered { IfOk result (IsAnsweredBy (IsToldByParts K.start F.sees F.folder)
        (LacksOfParts K.start F.sees F.folder) case.now) }
    ensures fault { IfErr result (OrMemory (λ e.
        ∥ FailsOfParts K.start F.sees F.folder (string_bytes server.now.address) e ∥₁)) }
{
    let files = FilesOf(world);
    let results: FolderStore<'_, W, F> = FolderStore::new(alloc, &files, folder);
    let blobs: Client<S, K, GetsBlobs> = Client::new(remote);
    let parts = BlobsAndResults::new(blobs, results);
    let mut source = Keeping::new(parts, mem::replace(told, Kept::nothing(alloc)));
    let answered = answer_question(alloc, case, &mut source);
    let (mut parts, kept) = source.into_parts();
    *told = kept;
    match answered {
        Ok(answer) => {
            if parts.confirms(alloc, &answer.lack) {
                return Ok(answer);
            }
            Err(parts.into_error(alloc, server)?)
        }
        Err(TextError::Fetch) => Err(parts.into_error(alloc, server)?),
        Err(_e) => Err(CommandError::Memory),
    }
}

/// The answer by blobs of the server and results of the folder.
fn judge_both<W: Inputs>(
    alloc: Global,
    world: &W,
    server: &ServerOptions,
    folder: String,
    case: &Case<Global>,
    told: &mut Kept<Global>,
) -> Result<Answer<Global>, CommandError>
    ensures answered { IfOk result
        (IsAnsweredBy (IsOfBoth (W.sees world.now) server.now (string_bytes folder))
        (LacksOfBoth (W.sees world.now) server.now (string_bytes folder)) case.now) }
    ensures fault { IfErr result (OrMemory (λ e.
        ∥ FailsOfBoth (W.sees world.now) server.now (string_bytes folder) e ∥₁)) }
{
    let remote = open(alloc, world, server)?;
    judge_parts::<W::Link, Brand, W, Brand>(alloc, world, server, remote, folder, case, told)
}

/// The answer over the place where the recorded build is.
fn judge<W: Inputs, M: Options>(
    alloc: Global,
    world: &W,
    options: &M,
    build: RecordedBuild,
    case: &Case<Global>,
    told: &mut Kept<Global>,
) -> Result<Answer<Global>, CommandError>
    requires { IsNamedPlace (M.rows options.now) build }
    ensures answered { IfOk result
        (IsAnsweredBy (IsOfPlace (W.sees world.now) (M.rows options.now))
        (LacksAtPlace (W.sees world.now) (M.rows options.now)) case.now) }
    ensures fault { IfErr result
        (OrMemory (λ e. ∥ FailsAtPlace (W.sees world.now) (M.rows options.now) e ∥₁)) }
{
    match build {
        RecordedBuild::Folder(folder) => judge_folder::<W, Brand>(alloc, world, folder, case, told),
        RecordedBuild::Server(server) => judge_server(alloc, world, &server, case, told),
        RecordedBuild::Both(server, folder) => judge_both(
            alloc, world, &server, folder, case, told,
        ),
    }
}

/// Prints a line, its newline last and alone, so that what an error leaves printed is no line.
pub(crate) fn print_line<O: Write>(line: &str, out: &mut O) -> Result<(), CommandError>
    requires { IsOneLine line.now }
    ensures printed { OnOk result
        (Appends (O.contents out.old) (O.contents out.new) line.now) }
    ensures begun { OnErr result
        (AppendsBeginning (O.contents out.old) (O.contents out.new) line.now) }
    ensures unended { OnErr result (PrintsNoLine (O.contents out.old) (O.contents out.new)) }
    ensures fault { IfErr result IsPrintFault }
{
    let line = line.as_bytes();
    let (text, newline) = line.split_at(line.len() - 1);
    write_bytes(out, text)?;
    out.flush().map_err(CommandError::Output)?;
    write_bytes(out, newline)
}

/// The folder that the words name, as a store or for results, for a note.
fn named_folder<M: Options>(alloc: Global, options: &M) -> Result<Option<String>, AllocError>
    ensures { IfOk result (λ folder. option_map string_bytes folder
        ≡ named_folder (M.rows options.now)) }
{
    match options.text("store").or(options.text("results")) {
        Some(folder) => Ok(Some(String::from_str(alloc, folder)?)),
        None => Ok(None),
    }
}

/// Whether the world tells that no folder is at a path.
fn lacks_folder<W: Inputs>(alloc: Global, world: &W, path: &str) -> bool
    ensures lacks { IsTrue result → LacksFolder (W.sees world.now) path.now }
    ensures may { IsFalse result → MayHaveFolder (W.sees world.now) path.now }
{
    match world.is_folder(alloc, path) {
        Ok(leads) => !leads,
        Err(FileError::Io { fault, .. }) => fault.kind() == ErrorKind::NotFound,
        Err(_) => false,
    }
}

/// What a verdict comes to. After a no the folder is looked for, and a note says that it isn't
/// there.
pub(crate) fn ended_of<W: Inputs>(
    alloc: Global,
    world: &W,
    folder: Option<String>,
    is_yes: bool,
) -> Ended
    ensures done { is_done result ≡ is_yes }
    ensures noted { NotesFolder (W.sees world.now) (option_map string_bytes folder) result }
{
    if is_yes {
        return Ended::Done;
    }
    match folder {
        Some(path) if lacks_folder(alloc, world, path.as_str()) => {
            Ended::No(Some(Note::NoStore { path }))
        }
        _ => Ended::No(None),
    }
}

/// The verdict that these options ask for. The words are read first, then the plan's file and its
/// text, then the record's; then the store, the server or both are asked. What is looked at is
/// kept.
pub(crate) fn judge_asked<W: Inputs, M: Options>(
    alloc: Global,
    world: &W,
    options: &M,
    kept: &mut KeptEvidence,
) -> Result<Answer<Global>, CommandError>
    ensures judged { IfOk result (λ answer. JudgesAnswer (W.sees world.now) (M.rows options.now)
        answer.verdict answer.made) }
    ensures refused { IfErr result (FailsToJudge (W.sees world.now) (M.rows options.now)) }
{
    let build = read_place(alloc, options)?;
    let digests = typed_digests(alloc, options)?;
    kept.keep_digest(alloc, "sources", &digests.sources)?;
    kept.keep_digest(alloc, "claim", &digests.claim)?;
    let plan = read_kept_plan(alloc, world, options, kept)?;
    let case = read_case(alloc, world, options, digests, plan, kept)?;
    judge(alloc, world, options, build, &case, &mut kept.told)
}

/// The line of the verdict that these options ask for, with a note where it is that builds don't
/// make the folder that stands for the claim.
pub(crate) fn verify_asked<W: Inputs, M: Options>(
    alloc: Global,
    world: &W,
    options: &M,
    read: &Option<FolderRead>,
    kept: &mut KeptEvidence,
) -> Result<Judgement, CommandError>
    ensures answered { IfOk result (λ j. AnswersOn (W.sees world.now) (M.rows options.now)
        (option_map value_of_read read.now) (string_bytes j.line) j.ended) }
    ensures one_line { IfOk result HasOneLine }
    ensures refused { IfErr result (FailsToJudge (W.sees world.now) (M.rows options.now)) }
{
    let folder = named_folder(alloc, options)?;
    let answer = judge_asked(alloc, world, options, kept)?;
    let note = note_of(alloc, &answer.made, read)?;
    let line = report(alloc, &answer.verdict)?;
    let ended = ended_of(alloc, world, folder, is_yes(&answer.verdict));
    let ended = with_note(ended, note);
    Ok(Judgement { line, ended })
}
