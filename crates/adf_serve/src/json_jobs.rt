//! Which jobs print JSON.
ghost use Rattle.std.specs.Prelude.{◌≡◌};
ghost use Rattle.adf_serve.specs.Commands.{is_json_list, is_json_map, prints_json};

use adf_cli::{ImageJob, ListForm, MapForm};

/// Whether a job prints JSON, and nothing else.
pub(crate) fn prints_json(job: &ImageJob<'_>) -> bool
    ensures { result ≡ prints_json job.now }
{
    match job {
        ImageJob::Info { json, .. }
        | ImageJob::Show { json, .. }
        | ImageJob::WherePath { json, .. }
        | ImageJob::ShowBoot { json, .. }
        | ImageJob::Validate { json, .. } => *json,
        ImageJob::Map(job) => is_json_map(job.form),
        ImageJob::Where(job) => job.json,
        ImageJob::List(job) => is_json_list(job.form),
        ImageJob::Check(job) => job.json,
        ImageJob::Salvage(job) => job.json,
        ImageJob::Undelete(job) => job.json,
        _ => false,
    }
}

/// Whether a list in this form is JSON.
fn is_json_list(form: ListForm) -> bool
    ensures { result ≡ is_json_list form }
{
    matches!(form, ListForm::Json)
}

/// Whether a map in this form is JSON.
fn is_json_map(form: MapForm) -> bool
    ensures { result ≡ is_json_map form }
{
    matches!(form, MapForm::Json)
}
