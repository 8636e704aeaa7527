//! What becomes of a request to append.
ghost use Rattle.std.specs.Prelude.{◌≡◌, IfOk};
ghost use Rattle.gz_journal.specs.JournalList.{is_expected, is_landed, change_of, refused, mismatch, landed_at, judgement};

use crate::Request;
use gz_label::{LabelError, LabelSet, NoMemory};

/// The greatest end of a journal, 2^62.
const MAX_END: u64 = 1 << 62;

/// What an append is answered.
#[derive(Debug, Drop)]
pub enum Landed {
    /// The content stands from offset `begin` to `end`.
    Landed { begin: u64, end: u64 },
    /// Another offset was expected than the journal's end, which is `head`.
    WrongOffset { head: u64 },
    /// The selector doesn't match the registers, which are these, or they would have more than 64 labels.
    RegisterMismatch { registers: LabelSet },
    /// The journal would end above the limit, which is 2^62.
    TooLarge { limit: u64 },
}

/// What an append is answered, and the journal's registers after it.
#[derive(Debug, Drop)]
pub struct Judged {
    pub landed: Landed,
    pub after: LabelSet,
}

impl Landed {
    /// Whether the content stands in the journal.
    pub fn is_landed(&self) -> bool
        ensures { result ≡ is_landed self.now }
    {
        match self {
            Landed::Landed { .. } => true,
            _ => false,
        }
    }
}

fn is_expected(offset: Option<u64>, end: u64) -> bool
    ensures { result ≡ is_expected offset end }
{
    match offset {
        Some(offset) => offset == end,
        None => true,
    }
}

/// The registers as the request would change them, or None where they would have more than 64 labels.
fn change(registers: &LabelSet, request: &Request) -> Result<Option<LabelSet>, NoMemory>
    ensures { IfOk result (λ after. after ≡ change_of request.now registers.now) }
{
    match registers.apply(&request.take, &request.add) {
        Ok(after) => Ok(Some(after)),
        Err(LabelError::NoMemory) => Err(NoMemory),
        Err(LabelError::TooMany | LabelError::BadName { .. }) => Ok(None),
    }
}

/// The answer to a request that doesn't land, so that the registers stay.
fn refuse(landed: Landed, registers: &LabelSet) -> Result<Judged, NoMemory>
    ensures { IfOk result (λ judged. judged ≡ refused landed registers.now) }
{
    let after = registers.copy()?;
    Ok(Judged { landed, after })
}

fn refuse_registers(registers: &LabelSet) -> Result<Judged, NoMemory>
    ensures { IfOk result (λ judged. judged ≡ refused (mismatch registers.now) registers.now) }
{
    let shown = registers.copy()?;
    let judged = refuse(Landed::RegisterMismatch { registers: shown }, registers)?;
    Ok(judged)
}

/// The answer to a request that the registers let pass, and which would change them like this.
fn land_at(
    end: u64,
    registers: &LabelSet,
    changed: LabelSet,
    request: &Request,
) -> Result<Judged, NoMemory>
    ensures { IfOk result (λ judged. judged ≡ landed_at end registers.now changed request.now) }
{
    let len = request.content.len() as u64;
    if end > MAX_END || len > MAX_END - end {
        let judged = refuse(Landed::TooLarge { limit: MAX_END }, registers)?;
        return Ok(judged);
    }
    let after = if len == 0 { registers.copy()? } else { changed };
    Ok(Judged {
        landed: Landed::Landed {
            begin: end,
            end: end + len,
        },
        after,
    })
}

/// What becomes of the request on each journal with this end and these registers: WrongOffset where another
/// offset is expected than the end; else RegisterMismatch where the selector doesn't match the registers, or
/// they would have more than 64 labels; else TooLarge where the end would pass 2^62; else it lands. `after`
/// is what the registers are then: they change only where content lands that isn't empty.
pub fn judge(end: u64, registers: &LabelSet, request: &Request) -> Result<Judged, NoMemory>
    ensures { IfOk result (λ judged. judged ≡ judgement end registers.now request.now) }
{
    if !is_expected(request.offset, end) {
        let judged = refuse(Landed::WrongOffset { head: end }, registers)?;
        return Ok(judged);
    }
    if !request.selector.matches(registers) {
        let judged = refuse_registers(registers)?;
        return Ok(judged);
    }
    let Some(changed) = change(registers, request)? else {
        let judged = refuse_registers(registers)?;
        return Ok(judged);
    };
    let judged = land_at(end, registers, changed, request)?;
    Ok(judged)
}
