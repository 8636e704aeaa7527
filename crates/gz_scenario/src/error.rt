//! Why a line is refused.
ghost use Rattle.std.specs.Prelude.{◌≡◌, IfOk};
ghost use Rattle.gz_scenario.specs.Refusals.{bad_field, bad_specs, about, refusal_text};

use gz_fields::FieldError;
use gz_label::{Blob, NoMemory};
use gz_links::SpecError;
use std::alloc::{AllocError, AllocFailed, Global};
use std::error::Error;
use std::fmt;

/// Why a line is refused. Lines are counted from 1.
#[derive(Debug, Drop)]
pub enum ScenarioError {
    /// The line is past the 65,536th, or has more than 4,194,304 bytes.
    Limit { line: u64 },
    /// The line isn't JSON.
    NotJson { line: u64 },
    /// The line says no event that is known, or specifications elsewhere than on the first line, or
    /// another event there.
    Unknown { line: u64 },
    /// A member is missing, unknown, or not what is asked for. The path names the first offender in
    /// reading order, as `messages[2].clock`.
    BadField { line: u64, path: Blob },
    /// Memory ran out.
    NoMemory,
}

impl fmt::Display for ScenarioError {
    fn fmt<W: fmt::Write>(&self, f: &mut fmt::Formatter<W>) -> fmt::Result {
        match self {
            ScenarioError::Limit { line } => write!(f, "line {line}: limit"),
            ScenarioError::NotJson { line } => write!(f, "line {line}: not JSON"),
            ScenarioError::Unknown { line } => write!(f, "line {line}: unknown event"),
            ScenarioError::BadField { line, path } => write!(f, "line {line}: bad field {path}"),
            ScenarioError::NoMemory => write!(f, "no memory"),
        }
    }
}

impl Error for ScenarioError {}

impl From<NoMemory> for ScenarioError {
    ghost use Rattle.std.specs.Prelude.{◌≡◌};
    ghost use Rattle.gz_scenario.specs.declared.error.ScenarioError.TheVariants.{NoMemory};

    ghost from_gives = { λ _ e. e ≡ NoMemory };

    fn from(_e: NoMemory) -> ScenarioError {
        ScenarioError::NoMemory
    }
}

/// What is wrong in this line, by what is wrong at a place of it.
pub fn bad_field(line: u64, error: FieldError) -> ScenarioError
    ensures { result ≡ bad_field line error }
{
    match error {
        FieldError::NotJson => ScenarioError::NotJson { line },
        FieldError::BadField { path } => ScenarioError::BadField { line, path },
        FieldError::BadName { path } => ScenarioError::BadField { line, path },
        FieldError::BadNumber { path } => ScenarioError::BadField { line, path },
        FieldError::Unsupported { path } => ScenarioError::BadField { line, path },
        FieldError::Twice { path } => ScenarioError::BadField { line, path },
        FieldError::NoMemory => ScenarioError::NoMemory,
    }
}

/// What is wrong in this line, by what is wrong with its specifications.
pub fn bad_specs(line: u64, error: SpecError) -> ScenarioError
    ensures { result ≡ bad_specs line error }
{
    match error {
        SpecError::Field(field) => bad_field(line, field),
        SpecError::NoJournal { path } => ScenarioError::BadField { line, path },
        SpecError::Cycle { path } => ScenarioError::BadField { line, path },
        SpecError::NoMemory => ScenarioError::NoMemory,
    }
}

/// The line's number, and these words.
fn about(alloc: Global, line: u64, words: &[u8]) -> Result<Blob, NoMemory>
    ensures { IfOk result (λ text. text ≡ about line words.now) }
{
    let prefix = format!(in alloc; "line {line}: ")?;
    let mut text = Blob::of(alloc, prefix.as_str().as_bytes())?;
    text.append(words)?;
    Ok(text)
}

impl ScenarioError {
    /// The text of the refusal, without a newline, as `line 7: bad field messages[2].clock`.
    pub fn print(&self, alloc: Global) -> Result<Blob, NoMemory>
        ensures { IfOk result (λ text. text ≡ refusal_text self.now) }
    {
        match self {
            ScenarioError::Limit { line } => about(alloc, *line, b"limit"),
            ScenarioError::NotJson { line } => about(alloc, *line, b"not JSON"),
            ScenarioError::Unknown { line } => about(alloc, *line, b"unknown event"),
            ScenarioError::BadField { line, path } => {
                let mut text = about(alloc, *line, b"bad field ")?;
                text.append(path.as_slice())?;
                Ok(text)
            }
            ScenarioError::NoMemory => Blob::of(alloc, b"no memory"),
        }
    }
}
