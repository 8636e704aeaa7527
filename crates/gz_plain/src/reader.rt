//! What a shard reads of a source.
ghost use Rattle.std.specs.Prelude.{◌≡◌, ◌≤◌, ◌^◌, ◌++◌, [], None, length, drop, map, IfOk, OnOk};
ghost use Rattle.gz_sequencer.specs.Machine.{at, fed, point_of, resumed, started};
ghost use Rattle.gz_promise.specs.Journals.{text_at};
ghost use Rattle.gz_plain.specs.Readers.{AreRead, IsRead, accepted, accepted_all, all_news, end_of_reader, news, reading, reading_all, HaveRoom};

use crate::feed::feed;
use crate::journals::Journals;
use gz_frame::Messages;
use gz_label::{Name, NoMemory};
use gz_sequencer::{Sequencer, SourcePoint};
use std::alloc::Global;
use std::marker::Model;

/// What was read on and doesn't count yet.
#[derive(Drop)]
pub struct Next {
    /// How many bytes behind the source's offset were read.
    pub read: u64,
    /// The checkpoint after them.
    pub point: SourcePoint,
}

/// A source of a shard: a journal, the offset from which it is read, and the checkpoint after what was read.
#[derive(Drop)]
pub struct Reader {
    /// The journal's name.
    pub journal: Name,
    /// Its place among the journals.
    pub place: usize,
    /// The offset from which it is read, at most 2^62.
    pub from: u64,
    /// How many bytes behind that offset were read.
    pub read: u64,
    /// The checkpoint after them.
    pub point: SourcePoint,
    /// What was read on since, until a commit makes it count.
    pub next: Option<Next>,
}

/// Takes all that the sequencer has released, and puts it behind the messages.
pub fn drain(sequencer: &mut Sequencer, messages: &mut Messages) -> Result<(), NoMemory>
    ensures messages { OnOk result (messages.new ≡ messages.old ++ sequencer.old.released) }
    ensures rest { OnOk result (sequencer.new ≡ record sequencer.old { released = [] }) }
{
    'released: while let Some(message) = sequencer.take_released() {
        messages.push(message)?;
    }
    Ok(())
}

/// Goes on from a checkpoint to the end of the text at this place: puts the messages that it releases behind the others,
/// and answers the checkpoint at the end.
#[tactic(auto, using(crate::proofs::Pieces::take_rest))]
fn resume(
    alloc: Global,
    point: &SourcePoint,
    journals: &Journals,
    place: usize,
    messages: &mut Messages,
) -> Result<SourcePoint, NoMemory>
    requires { at (resumed point.now) ≤ length (text_at place journals.now) }
    ensures messages { OnOk result
        (messages.new ≡ messages.old
        ++ (fed (resumed point.now)
        (drop (at (resumed point.now)) (text_at place journals.now))).released) }
    ensures point { IfOk result
        (λ next. next
        ≡ point_of (fed (resumed point.now)
        (drop (at (resumed point.now)) (text_at place journals.now)))) }
{
    let mut sequencer = Sequencer::resume(alloc, point)?;
    let end = journals.end_at(place);
    feed(journals, place, &mut sequencer, end)?;
    drain(&mut sequencer, messages)?;
    sequencer.checkpoint()
}

impl Reader {
    /// A reader that has read nothing yet. It takes no memory.
    pub fn new(alloc: Global, journal: Name, place: usize, from: u64) -> Reader
        ensures { result
            ≡ record {
              journal = journal;
              place = place;
              from = from;
              read = 0;
              point = point_of (started from);
              next = None;
            } }
    {
        Reader {
            journal,
            place,
            from,
            read: 0,
            point: SourcePoint::new(alloc, from),
            next: None,
        }
    }

    /// Reads what is new of the journal's text, and puts the messages that it releases behind the others. None where
    /// nothing is new. Time goes with what is new, and with the lines from the first message on that waits.
    fn peek(
        &self,
        alloc: Global,
        journals: &Journals,
        messages: &mut Messages,
    ) -> Result<Option<Next>, NoMemory>
        requires { IsRead self.now (text_at self.now.place journals.now) }
        ensures next { IfOk result
            (λ next. next ≡ (reading (text_at self.now.place journals.now) self.now).next) }
        ensures messages { OnOk result
            (messages.new ≡ messages.old ++ news self.now (text_at self.now.place journals.now)) }
    {
        let end = journals.end_at(self.place);
        let read = end.saturating_sub(self.from);
        if read <= self.read {
            return Ok(None);
        }
        let point = resume(alloc, &self.point, journals, self.place, messages)?;
        Ok(Some(Next { read, point }))
    }

    /// Reads what is new of the journal's text, and puts the messages that it releases behind the others. What was read
    /// counts when it is accepted, and else is read again.
    pub fn read_on(
        self,
        alloc: Global,
        journals: &Journals,
        messages: &mut Messages,
    ) -> Result<Reader, NoMemory>
        requires { IsRead self (text_at self.place journals.now) }
        ensures reader { IfOk result
            (λ reader. reader ≡ reading (text_at self.place journals.now) self) }
        ensures messages { OnOk result
            (messages.new ≡ messages.old ++ news self (text_at self.place journals.now)) }
        ensures short { length (text_at self.place journals.now) ≤ 2 ^ 62 }
    {
        let _end = journals.end_at(self.place);
        let next = self.peek(alloc, journals, messages)?;
        Ok(Reader { next, ..self })
    }

    /// What was read counts from now on.
    pub fn accept(self) -> Reader
        ensures { result ≡ accepted self }
    {
        let Reader {
            journal,
            place,
            from,
            read,
            point,
            next,
        } = self;
        let (read, point) = match next {
            None => (read, point),
            Some(next) => (next.read, next.point),
        };
        Reader {
            journal,
            place,
            from,
            read,
            point,
            next: None,
        }
    }
}

/// Readers, which a contract sees as their list.
#[derive(Drop)]
pub struct Readers {
    readers: Vec<Reader>,
}

impl Model for Readers {
    ghost use Rattle.std.specs.Prelude.{List};
    ghost use Rattle.gz_plain.specs.declared.reader.Reader.{Reader};

    ghost Value = { List Reader };

    ghost view = { λ a. a.readers.items };
}

/// The messages that each reader's journal has new, one reader after another.
fn peek_all(alloc: Global, readers: &[Reader], journals: &Journals) -> Result<Messages, NoMemory>
    requires { AreRead journals.now readers.now }
    ensures { IfOk result (λ messages. messages ≡ all_news journals.now readers.now) }
{
    let mut messages = Messages::new(alloc);
    for reader in readers {
        let _next = reader.peek(alloc, journals, &mut messages)?;
    }
    Ok(messages)
}

impl Readers {
    /// The same readers. It takes no memory.
    pub fn of(readers: Vec<Reader>) -> Readers
        ensures { result ≡ readers.items }
    {
        Readers { readers }
    }

    /// The readers. It takes no memory.
    pub fn as_slice(&self) -> &[Reader]
        ensures { result.now ≡ self.now }
    {
        self.readers.as_slice()
    }

    /// Each reader reads what is new of its journal, and the messages that this releases go behind the others, source by
    /// source.
    pub fn read_on(
        self,
        alloc: Global,
        journals: &Journals,
        messages: &mut Messages,
    ) -> Result<Readers, NoMemory>
        requires { AreRead journals.now self }
        ensures readers { IfOk result (λ readers. readers ≡ reading_all journals.now self) }
        ensures messages { OnOk result (messages.new ≡ messages.old ++ all_news journals.now self) }
        ensures room { IfOk result (λ readers. HaveRoom (accepted_all readers)) }
    {
        let mut readers = Vec::new(alloc);
        for reader in self.readers {
            let reader = reader.read_on(alloc, journals, messages)?;
            readers.push(reader)?;
        }
        Ok(Readers { readers })
    }

    /// The messages that each journal has new, source by source. Nothing counts as read.
    pub fn news(&self, alloc: Global, journals: &Journals) -> Result<Messages, NoMemory>
        requires { AreRead journals.now self.now }
        ensures { IfOk result (λ messages. messages ≡ all_news journals.now self.now) }
    {
        peek_all(alloc, self.readers.as_slice(), journals)
    }

    /// What was read counts from now on.
    pub fn accept(self, alloc: Global) -> Result<Readers, NoMemory>
        ensures { IfOk result (λ readers. readers ≡ accepted_all self) }
    {
        let mut readers = Vec::new(alloc);
        for reader in self.readers {
            readers.push(reader.accept())?;
        }
        Ok(Readers { readers })
    }

    /// The offsets up to which the readers have read.
    pub fn ends(&self, alloc: Global) -> Result<Vec<u64>, NoMemory>
        requires { HaveRoom self.now }
        ensures { IfOk result (λ ends. ends.items ≡ map end_of_reader self.now) }
    {
        let mut ends = Vec::new(alloc);
        for reader in &self.readers {
            ends.push(reader.from + reader.read)?;
        }
        Ok(ends)
    }
}
