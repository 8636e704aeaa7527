//! Names of fragments.
ghost use Rattle.std.specs.Prelude.{◌≡◌, ◌<◌, ◌*◌, length, IfOk, option_map, string_bytes};
ghost use Rattle.std.specs.List.{list_all};
ghost use Rattle.gz_fragment.specs.Names.{name_cmp, name_at, name_text, name_in, bytes_in, number_in, has_form, is_lower_digit};

use gz_label::{Blob, NoMemory};
use sha1::Sha1;
use std::alloc::Global;
use std::cmp::Ordering;
use std::marker::Model;

/// The bytes of a name's text.
const TEXT: usize = 78;

/// The greatest end of a content that is named, 2^62.
const LAST_END: u64 = 1 << 62;

/// The name of a fragment: it has its journal's bytes from `begin` to before `end`, where `begin` is below `end`,
/// and `sum` is their SHA-1 (FIPS 180-4). Names are ordered by begin, then by end, then by sum.
#[derive(Clone, Copy, Debug, PartialEq, Eq)]
pub struct FragmentName {
    begin: u64,
    end: u64,
    sum: [u8; 20],
}

impl Model for FragmentName {
    ghost use Rattle.std.specs.Prelude.{◌<◌};
    ghost use Rattle.gz_fragment.specs.Names.{FragmentName as Seen};

    ghost Value = { Seen };

    ghost view = { λ a. record { begin = a.begin; end = a.end; sum = a.sum } };

    ghost invariant = { λ a. a.begin < a.end };

    ghost inverse = { λ name. record { begin = name.begin; end = name.end; sum = name.sum } };
}

impl FragmentName {
    /// The offset of the first byte. It is below the end.
    pub fn begin(&self) -> u64
        ensures value { result ≡ self.now.begin }
        ensures below { self.now.begin < self.now.end }
    {
        self.begin
    }

    /// The offset behind the last byte.
    pub fn end(&self) -> u64
        ensures { result ≡ self.now.end }
    {
        self.end
    }

    /// The SHA-1 that the name gives.
    pub fn sum(&self) -> [u8; 20]
        ensures { result ≡ self.now.sum }
    {
        self.sum
    }

    /// The name that this text is: `begin-end-sum.raw` with 16, 16 and 40 hexadecimal digits in lower case, where
    /// begin is below end; None exactly where it is no name. It takes no memory.
    pub fn read(text: &[u8]) -> Option<FragmentName>
        ensures { result ≡ name_in text.now }
    {
        if !has_form(text) {
            return None;
        }
        let begin = read_number(&text[..16])?;
        let end = read_number(&text[17..33])?;
        let mut sum = [0u8; 20];
        read_digits(&text[34..74], &mut sum)?;
        if begin >= end {
            return None;
        }
        Some(FragmentName { begin, end, sum })
    }

    /// The text of the name, of 78 bytes, as a string.
    pub fn to_text(&self, alloc: Global) -> Result<String, NoMemory>
        ensures { IfOk result (λ text. string_bytes text ≡ name_text self.now) }
    {
        let end = hex::encode(alloc, self.end.to_be_bytes())?;
        let sum = hex::encode(alloc, self.sum)?;
        let mut text = hex::encode(alloc, self.begin.to_be_bytes())?;
        text.push_str("-")?;
        text.push_str(end.as_str())?;
        text.push_str("-")?;
        text.push_str(sum.as_str())?;
        text.push_str(".raw")?;
        Ok(text)
    }

    /// The text of the name, of 78 bytes.
    pub fn print(&self, alloc: Global) -> Result<Blob, NoMemory>
        ensures { IfOk result (λ text. text ≡ name_text self.now) }
    {
        let text = self.to_text(alloc)?;
        Ok(Blob::from_vec(text.into_bytes()))
    }

    /// How the names are ordered.
    pub fn compare(&self, other: &FragmentName) -> Ordering
        ensures { result ≡ name_cmp self.now other.now }
    {
        match self.begin.cmp(&other.begin) {
            Ordering::Equal => match self.end.cmp(&other.end) {
                Ordering::Equal => self.sum.cmp(&other.sum),
                order => order,
            },
            order => order,
        }
    }
}

/// The name of this content, whose first byte is at the offset `begin`. None exactly where there is no byte or the
/// content would end above 2^62. It takes no memory.
pub fn name_of(begin: u64, content: &[u8]) -> Option<FragmentName>
    ensures { result ≡ name_at begin content.now }
{
    let length = content.len() as u64;
    if length == 0 || begin > LAST_END || length > LAST_END - begin {
        return None;
    }
    Some(FragmentName {
        begin,
        end: begin + length,
        sum: Sha1::digest(content),
    })
}

// Whether the text has the length of a name, and what stands between its digits.
fn has_form(text: &[u8]) -> bool
    ensures { result ≡ has_form text.now }
{
    if text.len() != TEXT || text[16] != b'-' || text[33] != b'-' {
        return false;
    }
    &text[74..] == b".raw".as_slice()
}

fn is_lower_digit(byte: u8) -> bool
    ensures { result ≡ is_lower_digit byte }
{
    matches!(byte, b'0'..=b'9' | b'a'..=b'f')
}

fn are_lower_digits(text: &[u8]) -> bool
    ensures { result ≡ list_all is_lower_digit text.now }
{
    text.iter().all(|byte| is_lower_digit(*byte))
}

// Reads the bytes that pairs of digits spell.
fn read_digits(text: &[u8], bytes: &mut [u8]) -> Option<()>
    requires { length text.now ≡ 2 * length bytes.old }
    ensures { option_map (λ _. bytes.new) result ≡ bytes_in text.now }
{
    if !are_lower_digits(text) {
        return None;
    }
    match hex::decode_to_slice(text, bytes) {
        Ok(()) => Some(()),
        Err(_) => None,
    }
}

// The number that 16 digits spell.
fn read_number(text: &[u8]) -> Option<u64>
    requires { length text.now ≡ 16 }
    ensures { result ≡ number_in text.now }
{
    let mut bytes = [0u8; 8];
    read_digits(text, &mut bytes)?;
    Some(u64::from_be_bytes(bytes))
}
