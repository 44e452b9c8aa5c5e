ghost use Rattle.std.specs.Prelude.{◌≡◌, [], IfErr, IfOk, false, string_bytes};
ghost use Rattle.commands.specs.Compared.{FailsRecall, FailsRecallOf, IsRecalledIn};
ghost use Rattle.commands.specs.Compared.{RecallsAsked, RecallsEvidence, RecallsInside, no_stages};
ghost use Rattle.commands.specs.Evidence.{in_evidence};
ghost use Rattle.commands.specs.Faults.{OrMemory};
ghost use Rattle.commands.specs.Places.{FailsInFolder, SeesFiles};
ghost use Rattle.commands.specs.Printed.{NamesStore};
ghost use Rattle.commands.specs.Refusal.{FailsToJudge};
ghost use Rattle.commands.specs.Words.{IsUsageError};

use crate::archived::Archived;
use crate::error::CommandError;
use crate::evidence::read_archive;
use crate::evidence_options::read_options;
use crate::folder_store::{FolderMark, FolderStore};
use crate::kept_evidence::KeptEvidence;
use crate::options::Options;
use crate::stages::listed_stages;
use crate::verifying::{RecordedBuild, plan_in_file, read_case, read_place, typed_digests};
use crate::world::{Archives, FilesOf, Inputs};
use archive::Blocks;
use std::alloc::{AllocError, Global};
use std::marker::Brand;
use text_verifier::{Case, Recalled, TextError, recall};

/// What evidence asks, and what was recalled of it.
#[derive(Drop)]
pub(crate) struct Recollection {
    pub case: Case<Global>,
    pub recalled: Recalled<Global>,
}

/// Options of which none is said.
#[derive(Drop)]
pub(crate) struct Unsaid;

impl Options for Unsaid {
    ghost use Rattle.std.specs.Prelude.{[]};

    ghost rows = { λ _. [] };

    fn text(&self, _option: &'static str) -> Option<&str> {
        None
    }
}

/// What is recalled of the case by the store in the marked folder.
fn recall_folder<W: Inputs, K: FolderMark>(
    alloc: Global,
    world: &W,
    folder: String,
    case: &Case<Global>,
) -> Result<Recalled<Global>, CommandError>
    requires folder { K.folder ≡ string_bytes folder }
    requires sees { SeesFiles (W.sees world.now) K.sees }
    ensures recalled { IfOk result (IsRecalledIn K.sees K.folder case.now) }
    ensures fault { IfErr result (OrMemory (λ e. ∥ FailsInFolder K.sees K.folder e ∥₁)) }
{
    let files = FilesOf(world);
    let mut store: FolderStore<'_, W, K> = FolderStore::new(alloc, &files, folder);
    match recall(alloc, case, &mut store) {
        Ok(recalled) => {
            if store.confirms(&recalled.answer.lack) {
                return Ok(recalled);
            }
            Err(store.into_error())
        }
        Err(TextError::Fetch) => Err(store.into_error()),
        Err(_e) => Err(CommandError::Memory),
    }
}

/// What these options ask, which name a store, and what is recalled of it.
fn recall_asked<W: Inputs, M: Options>(
    alloc: Global,
    world: &W,
    options: &M,
) -> Result<Recollection, CommandError>
    requires { NamesStore (M.rows options.now) }
    ensures recalled { IfOk result (RecallsAsked (W.sees world.now) (M.rows options.now)) }
    ensures refused { IfErr result (FailsToJudge (W.sees world.now) (M.rows options.now)) }
{
    let RecordedBuild::Folder(folder) = read_place(alloc, options)? else {
        unreachable!();
    };
    let digests = typed_digests(alloc, options)?;
    let plan = plan_in_file(alloc, world, options)?;
    let mut kept = KeptEvidence::nothing(alloc);
    let case = read_case(alloc, world, options, digests, plan, &mut kept)?;
    let recalled = recall_folder::<W, Brand>(alloc, world, folder, &case)?;
    Ok(Recollection { case, recalled })
}

/// The error of evidence that lists stages.
fn stages_refused(alloc: Global, evidence: &str) -> Result<CommandError, AllocError>
    ensures { IfOk result (IsUsageError (no_stages evidence.now)) }
{
    let text = format!(in alloc; "{evidence}: a build in stages cannot be compared")?;
    Ok(CommandError::Usage(text))
}

/// What evidence of one plan in a world asks, and what is recalled of it.
fn recall_inside<W: Inputs>(
    alloc: Global,
    world: &W,
    evidence: &str,
) -> Result<Recollection, CommandError>
    ensures recalled { IfOk result (RecallsInside (W.sees world.now) evidence.now) }
    ensures refused { IfErr result (FailsRecall (W.sees world.now) evidence.now) }
{
    let mut kept = KeptEvidence::nothing(alloc);
    if listed_stages(alloc, world, evidence, &mut kept)?.is_some() {
        return Err(stages_refused(alloc, evidence)?);
    }
    let stated = read_options(alloc, world, world, &Unsaid, evidence)?;
    recall_asked(alloc, world, &stated.options)
}

/// What the archive in an open file asks, which stands for the folder at its path, and what is
/// recalled of it.
fn recall_archive<W: Inputs, B: Blocks>(
    alloc: Global,
    world: &W,
    evidence: &str,
    folder: &str,
    file: &B,
) -> Result<Recollection, CommandError>
    requires folder { folder.now ≡ in_evidence evidence.now [] }
    requires opened { (W.sees world.now).opens evidence.now (B.contents file.now) }
    requires lead { (W.sees world.now).leads evidence.now false }
    ensures recalled { IfOk result (RecallsEvidence (W.sees world.now) evidence.now) }
    ensures refused { IfErr result (OrMemory (FailsRecallOf (W.sees world.now) evidence.now)) }
{
    let archived = Archived {
        outside: world,
        folder,
        archive: read_archive(alloc, evidence, file)?,
    };
    recall_inside(alloc, &archived, evidence)
}

/// What the evidence at a path asks, and what is recalled of it.
pub(crate) fn recall_evidence<W: Inputs + Archives>(
    alloc: Global,
    world: &W,
    evidence: &str,
) -> Result<Recollection, CommandError>
    ensures recalled { IfOk result (RecallsEvidence (W.sees world.now) evidence.now) }
    ensures refused { IfErr result (OrMemory (FailsRecallOf (W.sees world.now) evidence.now)) }
{
    if world.is_folder(alloc, evidence)? {
        return recall_inside(alloc, world, evidence);
    }
    let file = world.open(alloc, evidence)?;
    let folder = format!(in alloc; "{evidence}/")?;
    recall_archive(alloc, world, evidence, folder.as_str(), &file)
}
