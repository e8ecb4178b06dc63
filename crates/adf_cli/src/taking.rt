//! From the arguments of a command that reads an image to its job.
ghost use Rattle.std.specs.Prelude.{◌≡◌, ◌≢◌, ◌<◌, All, IfErr, IfOk, None, OnOk, codes, length, map, true};
ghost use Rattle.clap.specs.Matches.{found_of};
ghost use Rattle.adf_cli.specs.Asked.{AreReadOnce, IsCheckOf, IsExtractOf, IsForOne, IsInfoOf, IsNameListOf, IsMapOf, IsOtherInput, IsShowOf, IsUndeleteOf, IsWhereOf, all_values};
ghost use Rattle.adf_cli.specs.Lists.{form_of, IsFormOf, IsOrderOf, TellsNoOrder, order_word, usual_order};
ghost use Rattle.adf_cli.specs.Maps.{IsMapFormOf, map_form_of};

use crate::arguments::Arguments;
use crate::block_word::asked_blocks;
use crate::fault::WordsFault;
use crate::image_file::{ImageFile, STANDARD_STREAM};
use crate::job::ImageJob;
use crate::letters::letters_of;
use crate::map_form::MapForm;
use crate::name_list::NameList;
use crate::query::{
    CheckJob, ExtractJob, ListForm, ListJob, ListOrder, MapJob, SalvageJob, UndeleteJob, WhereJob,
};
use crate::table::JOBS;
use std::alloc::Global;

/// The job of `check`.
pub(crate) fn check_job<'a>(arguments: &Arguments<'a, '_>) -> Result<ImageJob<'a>, WordsFault>
    ensures { IfOk result (IsCheckOf (found_of arguments.now.words.now)) }
{
    let jobs = arguments.number("jobs", &JOBS)?;
    let blocks = arguments.first_blocks()?;
    let from = name_list(arguments);
    let files = checked_files(arguments, from)?;
    let bad = arguments.bad_list();
    refuse_list_of_many(arguments.alloc, bad, from, files)?;
    Ok(ImageJob::Check(CheckJob {
        files: Vec::from_slice(arguments.alloc, files)?,
        from,
        blocks,
        all: arguments.flag("all"),
        json: arguments.flag("json"),
        filler: arguments.flag("filler"),
        bad,
        jobs,
    }))
}

/// Refuses a list of bad blocks for more than one file, or beside a list of names: it is that of one image.
fn refuse_list_of_many(
    alloc: Global,
    bad: Option<&str>,
    from: Option<NameList<'_>>,
    files: &[&str],
) -> Result<(), WordsFault>
    ensures { OnOk result (IsForOne bad.entry from.entry files.now) }
{
    if bad.is_some() && (from.is_some() || files.len() > 1) {
        return Err(WordsFault::wrong(
            alloc,
            format_args!(
                "error: '--bad <FILE>' lists the blocks of one image, so only one FILE is expected"
            ),
        ));
    }
    Ok(())
}

/// The list of names for `check`.
fn name_list<'a>(arguments: &Arguments<'a, '_>) -> Option<NameList<'a>>
    ensures { IsNameListOf (found_of arguments.now.words.now) result }
{
    match arguments.given("from") {
        Some(file) => Some(NameList {
            file,
            null: arguments.flag("null"),
        }),
        None => None,
    }
}

/// The files of `check`, at least one if there is no list of names.
fn checked_files<'a, 'b>(
    arguments: &Arguments<'a, 'b>,
    from: Option<NameList<'a>>,
) -> Result<&'b [&'a str], WordsFault>
    ensures words { IfOk result (λ files. map (λ word. word.now) files.now ≡ all_values (found_of arguments.now.words.now) (codes "FILE")) }
    ensures some { IfOk result (λ files. from.entry ≡ None → 0 < length files.now) }
    ensures once { IfOk result (λ files. AreReadOnce files.now × IsOtherInput from.entry files.now) }
{
    let Some(list) = from else {
        let files = arguments.some_words("FILE")?;
        refuse_second_input(arguments.alloc, files, false)?;
        return Ok(files);
    };
    let files = arguments.words("FILE");
    refuse_second_input(arguments.alloc, files, list.file == STANDARD_STREAM)?;
    Ok(files)
}

/// Refuses files of which more than one is standard input, since that can be read only once; or one, if something else reads it.
fn refuse_second_input(alloc: Global, files: &[&str], is_taken: bool) -> Result<(), WordsFault>
    ensures once { OnOk result (AreReadOnce files.now) }
    ensures files { OnOk result (is_taken ≡ true → All (λ word. word.now ≢ codes "-") files.now) }
{
    let mut is_input_read = is_taken;
    for file in files {
        if *file != STANDARD_STREAM {
            continue;
        }
        if is_input_read {
            return Err(WordsFault::wrong(
                alloc,
                format_args!("error: FILE '-' is standard input, which can be read only once"),
            ));
        }
        is_input_read = true;
    }
    Ok(())
}

/// The job of `list`.
pub(crate) fn list_job<'a>(arguments: &Arguments<'a, '_>) -> Result<ImageJob<'a>, WordsFault> {
    let path = match arguments.given("PATH") {
        Some(path) => Some(letters_of(arguments.alloc, path)?),
        None => None,
    };
    let form = list_form(arguments);
    Ok(ImageJob::List(ListJob {
        image: arguments.image()?,
        path,
        form,
        order: list_order(arguments, form)?,
    }))
}

/// The order of a list in this form.
fn list_order(arguments: &Arguments<'_, '_>, form: ListForm) -> Result<ListOrder, WordsFault>
    ensures { IfOk result (IsOrderOf (found_of arguments.now.words.now) form) }
{
    match arguments.given("sort") {
        Some(word) => order_of(arguments.alloc, word),
        None => Ok(usual_order(form)),
    }
}

/// The order without `--sort`: by name for people, else as on the disk.
fn usual_order(form: ListForm) -> ListOrder
    ensures { result ≡ usual_order form }
{
    match form {
        ListForm::Long | ListForm::Bold => ListOrder::Name,
        _ => ListOrder::Disk,
    }
}

/// The order with this name. Any other text makes the command line wrong.
fn order_of(alloc: Global, word: &str) -> Result<ListOrder, WordsFault>
    ensures order { IfOk result (λ order. word.now ≡ order_word order) }
    ensures fault { IfErr result (TellsNoOrder word.now) }
{
    match word {
        "disk" => Ok(ListOrder::Disk),
        "name" => Ok(ListOrder::Name),
        "size" => Ok(ListOrder::Size),
        "date" => Ok(ListOrder::Date),
        _ => Err(WordsFault::wrong(
            alloc,
            format_args!(
                "error: invalid value '{word}' for '--sort <KEY>': name, size, date or disk is expected"
            ),
        )),
    }
}

/// The job of `info`.
pub(crate) fn info_job<'a>(arguments: &Arguments<'a, '_>) -> Result<ImageJob<'a>, WordsFault>
    ensures { IfOk result (IsInfoOf (found_of arguments.now.words.now)) }
{
    Ok(ImageJob::Info {
        file: ImageFile {
            path: arguments.word("FILE")?,
            blocks: arguments.first_blocks()?,
        },
        json: arguments.flag("json"),
    })
}

/// The job of `show`.
pub(crate) fn show_job<'a>(arguments: &Arguments<'a, '_>) -> Result<ImageJob<'a>, WordsFault>
    ensures { IfOk result (IsShowOf (found_of arguments.now.words.now)) }
{
    Ok(ImageJob::Show {
        image: arguments.image()?,
        json: arguments.flag("json"),
    })
}

/// The job of `map`.
pub(crate) fn map_job<'a>(arguments: &Arguments<'a, '_>) -> Result<ImageJob<'a>, WordsFault>
    ensures { IfOk result (IsMapOf (found_of arguments.now.words.now)) }
{
    Ok(ImageJob::Map(MapJob {
        image: arguments.image()?,
        form: map_form(arguments),
        bad: arguments.bad_list(),
    }))
}

/// The form of a map, by its options.
fn map_form(arguments: &Arguments<'_, '_>) -> MapForm
    ensures { IsMapFormOf (found_of arguments.now.words.now) result }
{
    let tracks = arguments.flag("tracks");
    map_form_of(tracks, arguments.flag("json"))
}

/// The form of a map, by whether each option is given.
fn map_form_of(tracks: bool, json: bool) -> MapForm
    ensures { result ≡ map_form_of tracks json }
{
    match (tracks, json) {
        (true, _) => MapForm::Tracks,
        (false, true) => MapForm::Json,
        (false, false) => MapForm::Cylinders,
    }
}

/// The job of `where`: who owns blocks, or with `--path` the blocks of an entry.
pub(crate) fn where_job<'a>(arguments: &Arguments<'a, '_>) -> Result<ImageJob<'a>, WordsFault>
    ensures { IfOk result (IsWhereOf (found_of arguments.now.words.now)) }
{
    let (image, json) = (arguments.image()?, arguments.flag("json"));
    if let Some(path) = arguments.given("path") {
        let path = letters_of(arguments.alloc, path)?;
        return Ok(ImageJob::WherePath { image, path, json });
    }
    let words = arguments.some_words("BLOCK")?;
    Ok(ImageJob::Where(WhereJob {
        image,
        blocks: asked_blocks(arguments.alloc, words)?,
        json,
        bad: arguments.bad_list(),
    }))
}

/// The form of a list, by its options.
fn list_form(arguments: &Arguments<'_, '_>) -> ListForm
    ensures { IsFormOf (found_of arguments.now.words.now) result }
{
    let (long, json) = (arguments.flag("long"), arguments.flag("json"));
    form_of(long, json, arguments.flag("letters"))
}

/// The form of a list, by whether each option is given.
fn form_of(long: bool, json: bool, letters: bool) -> ListForm
    ensures { result ≡ form_of long json letters }
{
    match (long, json, letters) {
        (true, _, _) => ListForm::Long,
        (false, true, _) => ListForm::Json,
        (false, false, true) => ListForm::Letters,
        (false, false, false) => ListForm::Bytes,
    }
}

/// The job of `extract`.
pub(crate) fn extract_job<'a>(arguments: &Arguments<'a, '_>) -> Result<ImageJob<'a>, WordsFault>
    ensures { IfOk result (IsExtractOf (found_of arguments.now.words.now)) }
{
    let image = arguments.image()?;
    if let Some(to) = arguments.given("bundle") {
        return Ok(ImageJob::ExtractBundle { image, to });
    }
    let (to, meta) = (arguments.given("to").unwrap_or("."), arguments.flag("meta"));
    if arguments.flag("damaged") {
        let (list, json) = (arguments.flag("list"), arguments.flag("json"));
        return Ok(ImageJob::Salvage(SalvageJob {
            image,
            list,
            json,
            to,
            meta,
            bad: arguments.bad_list(),
            out: arguments.out_file()?,
            over: arguments.flag("over"),
            unaccounted: arguments.flag("unaccounted"),
        }));
    }
    Ok(ImageJob::Extract(ExtractJob {
        image,
        paths: arguments.paths()?,
        to,
        meta,
        force: arguments.flag("force"),
    }))
}

/// The job of `undelete`.
pub(crate) fn undelete_job<'a>(arguments: &Arguments<'a, '_>) -> Result<ImageJob<'a>, WordsFault>
    ensures { IfOk result (IsUndeleteOf (found_of arguments.now.words.now)) }
{
    Ok(ImageJob::Undelete(UndeleteJob {
        image: arguments.image()?,
        paths: arguments.paths()?,
        list: arguments.flag("list"),
        json: arguments.flag("json"),
        to: arguments.given("to").unwrap_or("."),
        meta: arguments.flag("meta"),
        force: arguments.flag("force"),
    }))
}
