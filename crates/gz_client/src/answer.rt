//! What a client is told of an append.
ghost use Rattle.std.specs.Prelude.{◌≡◌, IfOk};
ghost use Rattle.gz_journal.specs.declared.judgement.Landed.TheVariants as landed;
ghost use Rattle.gz_client.specs.Answers.{takes_lines, refusal_at, refusal_of, stands, labels_text, landed_text, answer_text};

use gz_journal::Landed;
use gz_label::{Blob, LabelSet, NoMemory};
use gz_spec::Framing;
use std::alloc::Global;

/// The most bytes of an append.
pub const MAX_APPEND: u64 = 1_048_576;

/// What a client is told of an append: what the journal judged, or why it wasn't asked.
#[derive(Debug, Drop)]
pub enum Answer {
    /// The client's name isn't free: it is or was a member's, or is kept for the program's own.
    NameUsed,
    /// There is no such journal.
    NoRoute,
    /// The content has more than `MAX_APPEND` bytes.
    TooLarge,
    /// The journal is one of fixed frames, and the content isn't.
    NotFramed,
    /// What the journal judged: the content landed, or why it didn't.
    Judged(Landed),
}

fn takes_lines(framing: Framing) -> bool
    ensures { result ≡ takes_lines framing }
{
    match framing {
        Framing::Lines | Framing::Bytes => true,
        Framing::FixedFrames | Framing::RecoveryLog => false,
    }
}

/// What is refused of lines of so many bytes to a journal of this framing.
fn refusal_at(framing: Framing, len: u64) -> Option<Answer>
    ensures { result ≡ refusal_at framing len }
{
    if len > MAX_APPEND {
        return Some(Answer::TooLarge);
    }
    if !takes_lines(framing) {
        return Some(Answer::NotFramed);
    }
    None
}

/// Why a journal isn't asked to append so many bytes of lines; None exactly where it is asked. It is given whether the
/// client's name isn't free, and the journal's framing where there is such a journal. The first that holds: NameUsed,
/// NoRoute, TooLarge, NotFramed.
pub fn refusal(is_taken: bool, framing: Option<Framing>, len: u64) -> Option<Answer>
    ensures { result ≡ refusal_of is_taken framing len }
{
    if is_taken {
        return Some(Answer::NameUsed);
    }
    match framing {
        Some(framing) => refusal_at(framing, len),
        None => Some(Answer::NoRoute),
    }
}

/// The labels as they are printed, or `-` where there are none.
pub fn print_labels(alloc: Global, labels: &LabelSet) -> Result<Blob, NoMemory>
    ensures { IfOk result (λ text. text ≡ labels_text labels.now) }
{
    if labels.len() == 0 {
        return Blob::of(alloc, b"-");
    }
    labels.print()
}

fn print_offsets(alloc: Global, begin: u64, end: u64) -> Result<Blob, NoMemory>
    ensures { IfOk result (λ text. text ≡ landed_text (landed.Landed begin end)) }
{
    let text = format!(in alloc; "ok {begin} {end}")?;
    Blob::of(alloc, text.as_bytes())
}

fn print_head(alloc: Global, head: u64) -> Result<Blob, NoMemory>
    ensures { IfOk result (λ text. text ≡ landed_text (landed.WrongOffset head)) }
{
    let text = format!(in alloc; "wrong offset {head}")?;
    Blob::of(alloc, text.as_bytes())
}

fn print_limit(alloc: Global, limit: u64) -> Result<Blob, NoMemory>
    ensures { IfOk result (λ text. text ≡ landed_text (landed.TooLarge limit)) }
{
    let text = format!(in alloc; "too large {limit}")?;
    Blob::of(alloc, text.as_bytes())
}

fn print_mismatch(alloc: Global, registers: &LabelSet) -> Result<Blob, NoMemory>
    ensures { IfOk result (λ text. text ≡ landed_text (landed.RegisterMismatch registers.now)) }
{
    let mut text = Blob::of(alloc, b"register mismatch ")?;
    let labels = print_labels(alloc, registers)?;
    text.append(labels.as_slice())?;
    Ok(text)
}

fn print_landed(alloc: Global, landed: &Landed) -> Result<Blob, NoMemory>
    ensures { IfOk result (λ text. text ≡ landed_text landed.now) }
{
    match landed {
        Landed::Landed { begin, end } => print_offsets(alloc, *begin, *end),
        Landed::WrongOffset { head } => print_head(alloc, *head),
        Landed::RegisterMismatch { registers } => print_mismatch(alloc, registers),
        Landed::TooLarge { limit } => print_limit(alloc, *limit),
    }
}

impl Answer {
    /// Whether the content stands in the journal. It takes no memory.
    pub fn is_landed(&self) -> bool
        ensures { result ≡ stands self.now }
    {
        match self {
            Answer::NameUsed | Answer::NoRoute | Answer::TooLarge | Answer::NotFramed => false,
            Answer::Judged(landed) => landed.is_landed(),
        }
    }

    /// The answer as it stands in a report.
    pub fn print(&self, alloc: Global) -> Result<Blob, NoMemory>
        ensures { IfOk result (λ text. text ≡ answer_text self.now) }
    {
        match self {
            Answer::NameUsed => Blob::of(alloc, b"name used"),
            Answer::NoRoute => Blob::of(alloc, b"no route"),
            Answer::TooLarge => print_limit(alloc, MAX_APPEND),
            Answer::NotFramed => Blob::of(alloc, b"not framed"),
            Answer::Judged(landed) => print_landed(alloc, landed),
        }
    }
}
