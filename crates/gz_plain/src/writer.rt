//! What a shard writes to.
ghost use Rattle.std.specs.Prelude.{◌≡◌, ◌+◌, ◌<◌, ◌≤◌, ◌^◌, ◌∷◌, [], length, map, replicate, IfOk, OnOk};
ghost use Rattle.gz_frame.specs.Line.{line_of};
ghost use Rattle.gz_plain.specs.Places.{ArePlaced, all_appended, ended, names_of, places_of, with_lines};
ghost use Rattle.gz_plain.specs.Plain.{ack_at, lines_from};
ghost use Rattle.gz_promise.specs.Journals.{appended_at};
ghost use Rattle.gz_promise.specs.Names.{Distinct};
ghost use Rattle.gz_plain.specs.Seen.{name_of};
ghost use Rattle.gz_plain.specs.Shards.{written_to};
ghost use Rattle.gz_promise.specs.Outputs.{choice};

use crate::journals::Journals;
use gz_app::{Output, Outputs};
use gz_frame::{Message, print_line};
use gz_label::{Attempt, Blob, Name, NoMemory};
use gz_uuid::{Flags, Parts, Producer};
use std::alloc::Global;

/// An output of a shard: a journal, and its place among the journals.
#[derive(Debug, Drop)]
pub struct Writer {
    /// The journal's name.
    pub journal: Name,
    /// Its place among the journals.
    pub place: usize,
}

/// Which of so many outputs, of which there is one at least, a key chooses: the sum of its bytes, modulo their number.
fn choice(count: usize, key: &[u8]) -> usize
    requires some { 0 < count }
    requires short { length key.now ≤ 256 }
    ensures value { result ≡ choice count key.now }
    ensures within { result < count }
{
    let mut total: usize = 0;
    for byte in key {
        total += *byte as usize;
    }
    total % count
}

/// A message with the producer's next clock.
fn next_message(
    alloc: Global,
    producer: &mut Producer,
    flags: Flags,
    key: &str,
    value: &str,
) -> Result<Message, NoMemory>
    requires room { producer.old.last + 1 < 2 ^ 64 }
    requires known_flags { flags ≤ 2 }
    requires short_key { length key.now ≤ 256 }
    requires short_value { length value.now ≤ 4096 }
    ensures message { IfOk result (λ message.
        message ≡ record { producer = producer.old.id; clock = producer.old.last + 1; flags = flags; key = key.now; value = value.now }) }
    ensures producer { OnOk result
        (producer.new ≡ record producer.old { last = producer.old.last + 1 }) }
{
    let clock = match producer.tick(0) {
        Ok(clock) => clock,
        Err(_) => unreachable!(),
    };
    let parts = Parts {
        producer: producer.id(),
        clock,
        flags,
    };
    let key = String::from_str(alloc, key)?;
    let value = String::from_str(alloc, value)?;
    Ok(Message::of(parts, key, value))
}

/// Puts the message's line behind the text that its key chooses, where there is one.
#[tactic(auto, using(crate::proofs::Places::with_line_set))]
fn put_line(alloc: Global, message: &Message, texts: &mut [Blob]) -> Result<(), NoMemory>
    ensures { OnOk result
        (texts.new ≡ with_lines (length texts.old) 0 (message.now ∷ []) texts.old) }
{
    if texts.is_empty() {
        return Ok(());
    }
    let line = print_line(alloc, message)?;
    let place = choice(texts.len(), message.key().as_bytes());
    texts[place].append(line.as_slice())
}

/// Puts a line for each output, with the producer's next clock, behind the text that its key chooses.
fn put_lines(
    alloc: Global,
    producer: &mut Producer,
    outputs: &[Output],
    texts: &mut [Blob],
) -> Result<(), NoMemory>
    requires room { producer.old.last + length outputs.now < 2 ^ 64 }
    ensures texts { OnOk result (texts.new
        ≡ with_lines (length texts.old) 0 (lines_from producer.old.id producer.old.last outputs.now) texts.old) }
    ensures producer { OnOk result
        (producer.new ≡ record producer.old { last = producer.old.last + length outputs.now }) }
{
    for output in outputs {
        let message = next_message(
            alloc,
            producer,
            Flags::CONTINUE_TXN,
            output.key(),
            output.value(),
        )?;
        put_line(alloc, &message, texts)?;
    }
    Ok(())
}

/// Puts the line of an acknowledgement behind the text, unless that is empty.
fn end_text(text: &mut Blob, line: &[u8]) -> Result<(), NoMemory>
    ensures { OnOk result (text.new ≡ ended line.now text.old) }
{
    if text.is_empty() {
        return Ok(());
    }
    text.append(line)
}

/// Puts the line of an acknowledgement behind each text that isn't empty.
fn put_ack(line: &[u8], texts: &mut [Blob]) -> Result<(), NoMemory>
    ensures { OnOk result (texts.new ≡ map (ended line.now) texts.old) }
{
    for i in 0..texts.len() {
        end_text(&mut texts[i], line)?;
    }
    Ok(())
}

/// So many empty texts.
fn empty_texts(alloc: Global, count: usize) -> Result<Vec<Blob>, NoMemory>
    ensures { IfOk result (λ texts. texts.items ≡ replicate count []) }
{
    let mut texts = Vec::with_capacity(alloc, count)?;
    for _i in 0..count {
        texts.push(Blob::new(alloc))?;
    }
    Ok(texts)
}

/// Puts the text behind the journal at this place, as an entry of this attempt. More than 2^62 bytes fit no memory.
fn append_text(
    place: usize,
    attempt: &Attempt,
    text: Blob,
    journals: &mut Journals,
) -> Result<(), NoMemory>
    ensures { OnOk result (journals.new ≡ appended_at attempt.now place text journals.old) }
{
    let landed = journals.append_at(place, attempt.copy()?, text)?;
    if !landed.is_landed() {
        return Err(NoMemory);
    }
    Ok(())
}

/// Puts each text behind the journal at its writer's place, as an entry of this attempt.
fn append_texts(
    writers: &[Writer],
    attempt: &Attempt,
    texts: Vec<Blob>,
    journals: &mut Journals,
) -> Result<(), NoMemory>
    requires { length texts.items ≡ length writers.now }
    ensures { OnOk result
        (journals.new ≡ all_appended attempt.now (places_of writers.now) texts.items journals.old) }
{
    let mut i = 0;
    for text in texts {
        append_text(writers[i].place, attempt, text, journals)?;
        i += 1;
    }
    Ok(())
}

/// The texts of a transaction for so many journals: a CONTINUE line for each output, with the producer's next clock, in
/// the text that its key chooses, and behind the lines of each text the ACK.
fn texts_of(
    alloc: Global,
    producer: &mut Producer,
    outputs: &[Output],
    count: usize,
) -> Result<Vec<Blob>, NoMemory>
    requires room { producer.old.last + length outputs.now + 1 < 2 ^ 64 }
    ensures texts { IfOk result (λ texts. texts.items
        ≡ map (ended (line_of (ack_at producer.old.id (producer.old.last + length outputs.now + 1))))
        (with_lines count 0 (lines_from producer.old.id producer.old.last outputs.now) (replicate count []))) }
    ensures producer { OnOk result
        (producer.new ≡ record producer.old { last = producer.old.last + length outputs.now + 1 }) }
{
    let mut texts = empty_texts(alloc, count)?;
    put_lines(alloc, producer, outputs, texts.as_mut_slice())?;
    let ack = next_message(alloc, producer, Flags::ACK_TXN, "", "")?;
    let line = print_line(alloc, &ack)?;
    put_ack(line.as_slice(), texts.as_mut_slice())?;
    Ok(texts)
}

/// Writes a transaction: a CONTINUE line for each output, with the producer's next clock, into the journal that its
/// key chooses, and behind the lines of each journal the ACK. Each journal gets its lines as one entry of this attempt.
/// After NoMemory neither is used again.
#[tactic(auto, using(crate::proofs::Places::written_places))]
pub fn write_commit(
    alloc: Global,
    attempt: &Attempt,
    producer: &mut Producer,
    outputs: &Outputs,
    writers: &[Writer],
    journals: &mut Journals,
) -> Result<(), NoMemory>
    requires room { producer.old.last + length outputs.now + 1 < 2 ^ 64 }
    requires names { Distinct (names_of journals.old) }
    requires places { ArePlaced journals.old writers.now }
    ensures journals { OnOk result (journals.new
        ≡ written_to attempt.now (length writers.now) 0 (lines_from producer.old.id producer.old.last outputs.now)
        (ack_at producer.old.id (producer.old.last + length outputs.now + 1)) (map name_of writers.now) journals.old) }
    ensures producer { OnOk result
        (producer.new ≡ record producer.old { last = producer.old.last + length outputs.now + 1 }) }
{
    let texts = texts_of(alloc, producer, outputs.as_slice(), writers.len())?;
    append_texts(writers, attempt, texts, journals)?;
    Ok(())
}
