//! The report of a world.
ghost use Rattle.std.specs.Prelude.{◌≡◌, ◌++◌, map, flat_map, IfOk, OnOk};
ghost use Rattle.gz_promise.specs.Journals.{entries_of};
ghost use Rattle.gz_plain.specs.Reports.{report_of as report_of_shard};
ghost use Rattle.gz_world.specs.declared.reply.Told.TheVariants.{Replied, Refused};
ghost use Rattle.gz_world.specs.Report.{reason_text, told_line, in_name_order, journal_of, journal_text, journal_line, status_of, shard_line, shard_lines, report_from};

use crate::judge::journal_in;
use crate::reply::{Reason, Told};
use gz_client::{Answer, print_labels};
use gz_label::{Blob, Name, NoMemory};
use gz_plain::{Cluster, ShardReport, count_committed};
use gz_spec::{Framing, JournalSpec};
use std::alloc::Global;
use std::collections::BTreeMap;
use std::marker::Model;

/// The journals in name order. Contracts see pairs of a name and what it holds.
#[derive(Drop)]
struct JournalTable {
    entries: BTreeMap<Name, Framing>,
}

impl Model for JournalTable {
    ghost use Rattle.std.specs.Prelude.{List, ℕ};
    ghost use Rattle.gz_spec.specs.declared.framing.Framing.{Framing};

    ghost Value = { List (List ℕ × Framing) };

    ghost view = { λ a. a.entries.entries };
}

fn in_name_order(alloc: Global, journals: &[JournalSpec]) -> Result<JournalTable, NoMemory>
    ensures { IfOk result (λ table. table ≡ in_name_order journals.now) }
{
    let mut entries = BTreeMap::new(alloc);
    for journal in journals {
        entries.insert(journal.name.copy()?, journal.framing())?;
    }
    Ok(JournalTable { entries })
}

fn reason_text(reason: Reason) -> &'static [u8]
    ensures { result.now ≡ reason_text reason }
{
    match reason {
        Reason::NameUsed => b"name used",
        Reason::NoRoute => b"no route",
        Reason::BadSpecs => b"bad specs",
        Reason::MembersFull => b"members full",
        Reason::NoMember => b"no member",
        Reason::KeysEnd => b"keys end",
    }
}

fn print_reply(
    alloc: Global,
    out: &mut Blob,
    line: u64,
    client: &Name,
    answer: &Answer,
) -> Result<(), NoMemory>
    ensures { OnOk result (out.new ≡ out.old ++ told_line (Replied line client.now answer.now)) }
{
    let client = client.as_str();
    let head = format!(in alloc; "reply {line} {client} ")?;
    let answer = answer.print(alloc)?;
    out.append(head.as_bytes())?;
    out.append(answer.as_slice())?;
    out.append(b"\n")
}

fn print_refusal(alloc: Global, out: &mut Blob, line: u64, reason: Reason) -> Result<(), NoMemory>
    ensures { OnOk result (out.new ≡ out.old ++ told_line (Refused line reason)) }
{
    let head = format!(in alloc; "refused {line} ")?;
    out.append(head.as_bytes())?;
    out.append(reason_text(reason))?;
    out.append(b"\n")
}

fn print_told(alloc: Global, out: &mut Blob, told: &Told) -> Result<(), NoMemory>
    ensures { OnOk result (out.new ≡ out.old ++ told_line told.now) }
{
    match told {
        Told::Replied {
            line,
            client,
            answer,
        } => print_reply(alloc, out, *line, client, answer),
        Told::Refused { line, reason } => print_refusal(alloc, out, *line, *reason),
    }
}

fn print_all_told(alloc: Global, out: &mut Blob, all: &[Told]) -> Result<(), NoMemory>
    ensures { OnOk result (out.new ≡ out.old ++ flat_map told_line all.now) }
{
    for told in all {
        print_told(alloc, out, told)?;
    }
    Ok(())
}

fn print_line(
    alloc: Global,
    out: &mut Blob,
    name: &Name,
    end: u64,
    committed: usize,
    registers: &[u8],
) -> Result<(), NoMemory>
    ensures { OnOk result (out.new ≡ out.old ++ journal_of name.now end committed registers.now) }
{
    let name = name.as_str();
    let head = format!(in alloc; "journal {name} {end} {committed} ")?;
    out.append(head.as_bytes())?;
    out.append(registers)?;
    out.append(b"\n")
}

fn print_text(alloc: Global, out: &mut Blob, cluster: &Cluster, name: &Name) -> Result<(), NoMemory>
    ensures { OnOk result
        (out.new ≡ out.old ++ journal_text name.now (entries_of name.now cluster.now.journals)) }
{
    match journal_in(cluster, name.as_slice()) {
        Some(journal) => {
            let committed = count_committed(alloc, journal)?;
            let registers = print_labels(alloc, journal.registers())?;
            print_line(
                alloc,
                out,
                name,
                journal.end(),
                committed,
                registers.as_slice(),
            )
        }
        None => print_line(alloc, out, name, 0, 0, b"-"),
    }
}

fn print_journal(
    alloc: Global,
    out: &mut Blob,
    cluster: &Cluster,
    name: &Name,
    framing: Framing,
) -> Result<(), NoMemory>
    ensures { OnOk result
        (out.new ≡ out.old ++ journal_line cluster.now.journals (name.now, framing)) }
{
    match framing {
        Framing::RecoveryLog => Ok(()),
        Framing::Lines | Framing::FixedFrames | Framing::Bytes => {
            print_text(alloc, out, cluster, name)
        }
    }
}

fn print_journals(
    alloc: Global,
    out: &mut Blob,
    cluster: &Cluster,
    journals: &[JournalSpec],
) -> Result<(), NoMemory>
    ensures { OnOk result
        (out.new ≡ out.old
        ++ flat_map (journal_line cluster.now.journals) (in_name_order journals.now)) }
{
    let table = in_name_order(alloc, journals)?;
    for (name, framing) in &table.entries {
        print_journal(alloc, out, cluster, name, *framing)?;
    }
    Ok(())
}

/// Whether the shard has read all that its sources have committed, and why not.
fn status_text(report: &ShardReport) -> &'static [u8]
    ensures { result.now ≡ status_of report.now }
{
    if report.is_caught {
        return b"caught";
    }
    if report.is_disabled {
        b"stalled disabled"
    } else {
        b"behind"
    }
}

fn print_shard(alloc: Global, out: &mut Blob, report: &ShardReport) -> Result<(), NoMemory>
    ensures { OnOk result (out.new ≡ out.old ++ shard_line report.now) }
{
    let id = report.id.as_str();
    let commits = report.commits;
    let messages = report.messages;
    let head = format!(in alloc; "shard {id} {commits} {messages} ")?;
    out.append(head.as_bytes())?;
    out.append(status_text(report))?;
    out.append(b" ")?;
    out.append(report.store.as_slice())?;
    out.append(b"\n")
}

/// A line for each shard.
fn print_shards(alloc: Global, out: &mut Blob, reports: &[ShardReport]) -> Result<(), NoMemory>
    ensures { OnOk result (out.new ≡ out.old ++ shard_lines reports.now) }
{
    for report in reports {
        print_shard(alloc, out, report)?;
    }
    Ok(())
}

/// The report of what was told, of the journals of these specifications, and of the shards.
pub fn print(
    alloc: Global,
    told: &[Told],
    journals: &[JournalSpec],
    cluster: &Cluster,
) -> Result<Blob, NoMemory>
    ensures { IfOk result (λ text. text ≡ report_from told.now journals.now cluster.now) }
{
    let mut out = Blob::new(alloc);
    print_all_told(alloc, &mut out, told)?;
    print_journals(alloc, &mut out, cluster, journals)?;
    let reports = cluster.reports(alloc)?;
    print_shards(alloc, &mut out, reports.as_slice())?;
    Ok(out)
}
