//! What a shard does with its messages, which its labels say.
ghost use Rattle.std.specs.Prelude.{◌≡◌, length, Ok, option_map, codes};
ghost use Rattle.gz_label.specs.Labels.{values_of};
ghost use Rattle.gz_fields.specs.Outcomes.{Gives};
ghost use Rattle.gz_spec.specs.Firsts.{first};
ghost use Rattle.gz_spec.specs.Shards.{app_of, outputs_fit, labels_fit};

use gz_app::{AppKind, app_of};
use gz_fields::FieldError;
use gz_label::{Blob, Label, Name};

/// The most outputs of a shard.
const MAX_OUTPUTS: usize = 8;

/// The first value of the labels of this name.
pub fn first_value<'a>(labels: &'a [Label], name: &[u8]) -> Option<&'a Name>
    ensures { option_map (λ v. v.now) result ≡ first (values_of name.now labels.now) }
{
    for label in labels {
        if label.name.as_slice() == name {
            return Some(&label.value);
        }
    }
    None
}

/// How many labels have this name.
pub fn count_values(labels: &[Label], name: &[u8]) -> usize
    ensures { result ≡ length (values_of name.now labels.now) }
{
    let mut n: usize = 0;
    for label in labels {
        if label.name.as_slice() == name {
            n += 1;
        }
    }
    n
}

/// The application that the labels name: the only value of the label `app`, where that is `count`,
/// `relay` or `latest`.
#[tactic(auto, using(crate::proofs::Apps::app_of_one, crate::proofs::Apps::app_of_more))]
pub fn app_in(labels: &[Label]) -> Option<AppKind>
    ensures { result ≡ app_of (values_of (codes "app") labels.now) }
{
    let n = count_values(labels, b"app");
    if n != 1 {
        return None;
    }
    match first_value(labels, b"app") {
        None => None,
        Some(value) => app_of(value),
    }
}

/// Refuses a number of outputs that the application doesn't take.
fn refuse_outputs(path: Blob, app: AppKind, n: usize) -> Result<(), FieldError>
    ensures { Gives (λ u. u) result (outputs_fit path n app) }
{
    match app {
        AppKind::Latest => {
            if n == 0 {
                Ok(())
            } else {
                Err(FieldError::BadField { path })
            }
        }
        AppKind::Count | AppKind::Relay => {
            if n == 0 {
                Err(FieldError::BadField { path })
            } else if n > MAX_OUTPUTS {
                Err(FieldError::BadNumber { path })
            } else {
                Ok(())
            }
        }
    }
}

/// Refuses labels that name no application, or not as many outputs as it takes. The path is that of
/// the labels.
#[tactic(auto, unfolding(crate::specs::Shards::labels_fit))]
pub fn refuse_labels(path: Blob, labels: &[Label]) -> Result<(), FieldError>
    ensures { Gives (λ u. u) result (labels_fit path labels.now) }
{
    match app_in(labels) {
        None => Err(FieldError::BadField { path }),
        Some(app) => {
            let n = count_values(labels, b"output");
            refuse_outputs(path, app, n)
        }
    }
}
