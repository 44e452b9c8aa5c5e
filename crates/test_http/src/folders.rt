//! A store in a folder.
use blob_digest::Digest;
use blob_source::{BlobSource, FetchError};
use remote::{FileError, FolderSource, SystemFiles};
use std::alloc::Allocator;
use std::rt::Files;
use std::{fs, io};
use test_support::Refusing;

/// The file of the blob `123456789`, and the result of an action with that digest.
const BLOB: &str = "kept/cas/15e2b0d3c33891ebb0f1ef609ec419420c20e320ce94c65fbc8c3312448eb225";

const RESULT: &str = "kept/ac/15e2b0d3c33891ebb0f1ef609ec419420c20e320ce94c65fbc8c3312448eb225";

/// Where a folder stands in place of the result of an action with the digest of `a`.
const NO_FILE: &str = "kept/ac/ca978112ca1bbdcafac231b39a23dc4da786eff8147c4e72b9807785afee48bb";

/// The lengths of a blob, and of its result.
fn lengths<R: Files + Alloc<A = A>, A: Allocator + Copy>(
    rt: &R,
    source: &mut FolderSource<'_, SystemFiles<'_, R>, A>,
) -> Result<(Option<usize>, Option<usize>), FetchError> {
    let nine = Digest::of(b"123456789");
    let blob = source.fetch(rt.alloc(), &nine)?.map(|bytes| bytes.len());
    let result = source.result(rt.alloc(), &nine)?.map(|bytes| bytes.len());
    Ok((blob, result))
}

/// The lengths in the folder `kept`.
fn lengths_there<R: Files + Alloc<A = A>, A: Allocator + Copy>(
    rt: &R,
) -> Result<(Option<usize>, Option<usize>), FetchError> {
    let place = String::from_str(rt.alloc(), "kept")?;
    let files = SystemFiles(rt);
    let mut source = FolderSource::new(rt.alloc(), &files, place);
    lengths(rt, &mut source)
}

/// Prints what a folder tells of a blob and of its result.
pub fn read_folder(rt: &HostRuntime) -> io::Result<()> {
    fs::create_dir_all(rt, "kept/cas")?;
    fs::create_dir_all(rt, NO_FILE)?;
    fs::write(rt, BLOB, b"123456789")?;
    println!(rt;
        "each request for memory refused: {}",
        refusals_are_told(rt)
    )?;
    read_store(rt)?;
    println!(rt; "asked anew: {:?}", lengths_there(rt))
}

/// Prints what a folder tells where the blob goes and the result comes between, and where a folder
/// stands in place of a file.
fn read_store(rt: &HostRuntime) -> io::Result<()> {
    let heap = rt.alloc();
    let files = SystemFiles(rt);
    let mut source = FolderSource::new(heap, &files, String::from_str(heap, "kept")?);
    println!(rt; "a blob: {:?}", lengths(rt, &mut source))?;
    fs::remove_file(rt, BLOB)?;
    fs::write(rt, RESULT, b"result")?;
    println!(rt; "asked once: {:?}", lengths(rt, &mut source))?;
    let refused = source.result(heap, &Digest::of(b"a"));
    let failed = matches!(refused, Err(FetchError::Failed));
    let error = source.into_error();
    let told = matches!(&error, Some(FileError::NotAFile { path }) if path.as_str() == NO_FILE);
    println!(rt; "a folder in place of a file: {}", failed && told)
}

/// Whether each request for memory, refused in turn, is told as such.
fn refusals_are_told(rt: &HostRuntime) -> bool {
    for number in 1..1000u64 {
        let alloc = Refusing::new(rt.alloc(), number);
        let answer = lengths_there(&(rt, &alloc));
        if !alloc.has_refused() {
            return number > 1 && answer == Ok((Some(9), None));
        }
        if answer != Err(FetchError::Memory) {
            return false;
        }
    }
    false
}
