//! The files that a list names.
ghost use Rattle.std.specs.Prelude.{◌≡◌, ◌<◌, ◌∷◌, ◌++◌, [], ℕ, IfOk, List, OnOk, length, map};
ghost use Rattle.std.specs.List.{AllZip, position};
ghost use Rattle.std.specs.String.{string_bytes};
ghost use Rattle.adf_archive.specs.NameLists.{IsCalled, ends_name, names_in};
ghost use Rattle.adf_archive.specs.steps.Adding.{AddsOwn, name_or_none};

use crate::finding::FoundImages;
use crate::names::{TextName, text_name};
use std::alloc::{AllocError, Global};
use std::rt::Files;

/// The names in a list. With `null` a zero byte ends each, else the end of a line does, which may be that of MS-DOS. The last one
/// may lack it.
pub fn listed_names(alloc: Global, list: &[u8], null: bool) -> Result<Vec<&[u8]>, AllocError>
    ensures { IfOk result (λ names. map (λ name. name.now) names.items ≡ names_in null list.now) }
{
    let mut names = Vec::new(alloc);
    let mut rest = list;
    while !rest.is_empty() {
        let (name, behind) = first_part(rest, null);
        push_name(name, &mut names)?;
        rest = behind;
    }
    Ok(names)
}

/// What a list has before the first byte that ends a name, and what it has after it.
fn first_part(list: &[u8], null: bool) -> (&[u8], &[u8])
    requires { 0 < length list.now }
    ensures names { names_in null list.now ≡ name_or_none result.0.now ++ names_in null result.1.now }
    ensures shorter { length result.1.now < length list.now }
{
    match end_of(list, null) {
        Some(place) => (&list[..place], &list[place + 1..]),
        None => (list, &[]),
    }
}

/// The position of the first byte that ends a name.
fn end_of(list: &[u8], null: bool) -> Option<usize>
    ensures { result ≡ position (ends_name null) list.now }
{
    list.iter().position(|byte| ends_name(null, *byte))
}

/// Appends a name, unless it is empty.
fn push_name<'a>(name: &'a [u8], names: &mut Vec<&'a [u8]>) -> Result<(), AllocError>
    ensures { OnOk result (map (λ name. name.now) names.new.items ≡ map (λ name. name.now) names.old.items ++ name_or_none name.now) }
{
    let is_name = !name.is_empty();
    if is_name {
        names.push(name)?;
    }
    Ok(())
}

/// Whether this byte ends a name in a list.
fn ends_name(null: bool, byte: u8) -> bool
    ensures { result ≡ ends_name null byte }
{
    if null {
        byte == 0
    } else {
        byte == b'\n' || byte == b'\r'
    }
}

/// Adds the images that the names of a list name: each as an argument would, but `-`.
pub(crate) fn add_listed<R: Files>(
    rt: &R,
    alloc: Global,
    names: &[&[u8]],
    found: &mut FoundImages,
) -> Result<(), AllocError>
    ensures { OnOk result ((called : List (List ℕ)) × AllZip IsCalled (map (λ name. name.now) names.now) called × AddsOwn found.old found.new called) }
{
    for name in names {
        add_name(rt, alloc, *name, found)?;
    }
    Ok(())
}

/// Adds the images that a name of a list names.
fn add_name<R: Files>(
    rt: &R,
    alloc: Global,
    name: &[u8],
    found: &mut FoundImages,
) -> Result<(), AllocError>
    ensures { OnOk result ((path : List ℕ) × IsCalled name.now path × AddsOwn found.old found.new (path ∷ [])) }
{
    let TextName { text, is_hosts } = path_of_name(alloc, name)?;
    if is_hosts {
        found.add_word(rt, alloc, text.as_str())?;
        return Ok(());
    }
    found.add(text, false, None)?;
    Ok(())
}

/// The path for a name in a list. `-` is the file of that name, and not standard input.
fn path_of_name(alloc: Global, name: &[u8]) -> Result<TextName, AllocError>
    ensures { IfOk result (λ path. IsCalled name.now (string_bytes path.text)) }
{
    if name == b"-".as_slice() {
        return Ok(TextName {
            text: String::from_str(alloc, "./-")?,
            is_hosts: true,
        });
    }
    text_name(alloc, name)
}
