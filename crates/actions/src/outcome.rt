ghost use Rattle.std.specs.Prelude.{◌≡◌, [], map, IfOk, IfErr, IfSome, IsErrOf, OnOk, OnErr};
ghost use Rattle.std.specs.List.{AllByRecursion, list_any};
ghost use Rattle.messages.specs.Order.{bytes_cmp};
ghost use Rattle.messages.specs.Path.{IsPath, AreApart};
ghost use Rattle.action_messages.specs.Ascending.{IsAscendingBy};
ghost use Rattle.action_messages.specs.Overlaps.{is_under, texts_of};
ghost use Rattle.actions.specs.Outcome.{IsOutcome, AddsOutput, ExplainsAdd, output_value};
ghost use Rattle.actions.specs.Outcome.{outputs_in};
ghost use Rattle.actions.specs.OutcomeLookup.{StandsOver};
ghost use Rattle.actions.specs.Parts.{HasRoom};

use action_messages::{Listed, lies_under_some, place_of};
use blob_digest::Digest;
use messages::{Path, Target, Tree};
use std::alloc::{AllocError, Allocator};
use std::marker::Model;
use tree::AddError;

/// What an action made at an output path.
#[derive(Drop)]
#[derive_where(Debug)]
pub enum Output<A: Allocator> {
    /// A file, by the digest of its content.
    File { digest: Digest, executable: bool },
    /// A symbolic link.
    Link { target: Target<A> },
    /// A whole directory.
    Tree(Tree<A>),
}

/// What an action comes to: its exit code and its outputs, which ascend by the texts of their
/// paths. No path equals another or lies under it.
#[derive(Drop)]
#[derive_where(Debug)]
pub struct Outcome<A: Allocator> {
    exit_code: i32,
    outputs: Vec<(Path<A>, Output<A>), A>,
}

impl<A: Allocator> Model for Outcome<A> {
    ghost use Rattle.actions.specs.Outcome.{OutcomeValue, IsOutcome, outputs_in};

    ghost Value = { OutcomeValue };

    ghost view = { λ a. record { exit_code = a.exit_code; outputs = outputs_in a.outputs.items } };

    ghost invariant = { λ a. IsOutcome
        (record { exit_code = a.exit_code; outputs = outputs_in a.outputs.items }) };
}

impl<A: Allocator> Outcome<A> {
    /// The outcome of this exit code, without outputs.
    pub fn new(alloc: A, exit_code: i32) -> Outcome<A>
        ensures { result ≡ record { exit_code = exit_code; outputs = [] } }
    {
        Outcome {
            exit_code,
            outputs: Vec::new(alloc),
        }
    }

    /// The outcome of this exit code and these outputs, which keep the rules.
    pub fn from_outputs(exit_code: i32, outputs: Vec<(Path<A>, Output<A>), A>) -> Outcome<A>
        requires { IsOutcome
            (record { exit_code = exit_code; outputs = outputs_in outputs.items }) }
        ensures { result ≡ record { exit_code = exit_code; outputs = outputs_in outputs.items } }
    {
        Outcome { exit_code, outputs }
    }

    /// The exit code of the process.
    pub fn exit_code(&self) -> i32
        ensures value { result ≡ self.now.exit_code }
        ensures valid { IsOutcome self.now }
    {
        self.exit_code
    }

    /// The outputs, by the texts of their paths.
    pub fn outputs(&self) -> &[(Path<A>, Output<A>)]
        ensures value { outputs_in result.now ≡ self.now.outputs }
        ensures valid { IsOutcome self.now }
    {
        &self.outputs
    }
}

/// Whether one of ascending paths lies under the path of this text: the first that could is that at
/// the place of the text with a slash after it.
fn some_lies_under<A: Allocator, L: Listed>(
    alloc: A,
    items: &[L],
    text: &[u8],
) -> Result<bool, AllocError>
    requires { IsAscendingBy bytes_cmp (texts_of (map L.path_in items.now)) }
    ensures { IfOk result
        (λ b. b ≡ list_any (λ t. is_under t text.now) (texts_of (map L.path_in items.now))) }
{
    let mut below = Vec::from_slice(alloc, text)?;
    below.push(b'/')?;
    match place_of(items, &below) {
        Ok(_) => Ok(true),
        Err(place) => match items.get(place) {
            Some(item) => Ok(item.path_text().starts_with(&below)),
            None => Ok(false),
        },
    }
}

/// Where an output of this path would stand, unless a path that is there leaves no room for it.
fn room_for<A: Allocator + Copy>(
    alloc: A,
    outputs: &[(Path<A>, Output<A>)],
    path: &Path<A>,
) -> Result<Option<usize>, AllocError>
    requires ascend { IsAscendingBy bytes_cmp (texts_of (map (λ e. e.0) outputs.now)) }
    requires valid { AllByRecursion IsPath (map (λ e. e.0) outputs.now) }
    requires apart { AreApart (map (λ e. e.0) outputs.now) }
    ensures room { IfOk result (HasRoom (map (λ e. e.0) outputs.now) path.now) }
    ensures above { IfOk result (λ o. IfSome o (λ _.
        AllByRecursion (λ above. ¬ StandsOver above path.now) (map (λ e. e.0) outputs.now))) }
    ensures memory { OnErr result
        (AllByRecursion (λ above. ¬ StandsOver above path.now) (map (λ e. e.0) outputs.now)) }
{
    let text = path.as_bytes();
    let Err(place) = place_of(outputs, text) else {
        return Ok(None);
    };
    if lies_under_some(text, outputs) {
        return Ok(None);
    }
    if some_lies_under(alloc, outputs, text)? {
        return Ok(None);
    }
    Ok(Some(place))
}

impl<A: Allocator + Copy> Outcome<A> {
    /// One more output, in its place by the path's text. `Overlap` where the path equals, lies
    /// under or lies above one that is there. The place and the overlaps are found by binary
    /// searches, one for each name of the path; after a refusal nothing has changed.
    pub fn add(&mut self, alloc: A, path: Path<A>, output: Output<A>) -> Result<(), AddError<A>>
        ensures added { OnOk result (AddsOutput self.old path (output_value output) self.new) }
        ensures refused { IfErr result (λ e. ExplainsAdd self.old path e) }
        // A path at or under one that is there takes no memory to refuse.
        ensures memory { IsErrOf result AddError.Memory
            → AllByRecursion (λ e. ¬ StandsOver e.0 path) self.old.outputs }
        ensures unchanged { OnErr result (self.new ≡ self.old) }
    {
        match room_for(alloc, &self.outputs, &path)? {
            Some(place) => {
                self.outputs.insert(place, (path, output))?;
                Ok(())
            }
            None => Err(AddError::Overlap(path)),
        }
    }
}
