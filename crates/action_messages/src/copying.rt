ghost use Rattle.std.specs.Prelude.{◌≡◌, [], None, IfOk, IsOk, map};
ghost use Rattle.std.specs.String.{string_bytes};

use crate::setting::Setting;
use messages::Path;
use std::alloc::{AllocError, Allocator};

/// A copy of the texts, over another allocator.
pub(crate) fn copy_texts<A: Allocator + Copy, B: Allocator>(
    alloc: A,
    texts: &[String<B>],
) -> Result<Vec<String<A>, A>, AllocError>
    ensures copy { IfOk result
        (λ copies. map string_bytes copies.items ≡ map string_bytes texts.now) }
    ensures none { texts.now ≡ [] → IsOk result }
{
    let mut copies = Vec::new(alloc);
    for text in texts {
        copies.push(String::from_str(alloc, text.as_str())?)?;
    }
    Ok(copies)
}

/// A copy of the settings, over another allocator.
pub(crate) fn copy_settings<A: Allocator + Copy, B: Allocator>(
    alloc: A,
    settings: &[Setting<B>],
) -> Result<Vec<Setting<A>, A>, AllocError>
    ensures copy { IfOk result (λ copies. copies.items ≡ settings.now) }
    ensures none { settings.now ≡ [] → IsOk result }
{
    let mut copies = Vec::new(alloc);
    for setting in settings {
        copies.push(Setting::copy_of(alloc, setting)?)?;
    }
    Ok(copies)
}

/// A copy of the paths, over another allocator.
pub(crate) fn copy_paths<A: Allocator + Copy, B: Allocator>(
    alloc: A,
    paths: &[Path<B>],
) -> Result<Vec<Path<A>, A>, AllocError>
    ensures copy { IfOk result (λ copies. copies.items ≡ paths.now) }
    ensures none { paths.now ≡ [] → IsOk result }
{
    let mut copies = Vec::new(alloc);
    for path in paths {
        copies.push(Path::copy_of(alloc, path)?)?;
    }
    Ok(copies)
}

/// A copy of the path, if there is one, over another allocator.
pub(crate) fn copy_directory<A: Allocator, B: Allocator>(
    alloc: A,
    path: &Option<Path<B>>,
) -> Result<Option<Path<A>>, AllocError>
    ensures copy { IfOk result (λ copy. copy ≡ path.now) }
    ensures absent { path.now ≡ None → IsOk result }
{
    match path {
        Some(path) => Ok(Some(Path::copy_of(alloc, path)?)),
        None => Ok(None),
    }
}
