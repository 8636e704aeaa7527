//! The command that the words are.
ghost use Rattle.std.specs.Prelude.{◌≡◌, ◌≢◌, ◌≤◌, ◌⊎◌, map, string_bytes, true, false, IfOk};
ghost use Rattle.std.specs.Io.KnownBytes.{Appends, Keeps, IsAtEnd};
ghost use Rattle.gz_model.specs.Faults.{HasRisen};
ghost use Rattle.gz_model.specs.Told.{AppendsPrefix};
ghost use Rattle.gz_ctl.specs.Commands.{is_command, usage_text, read_fault_text};
ghost use Rattle.gz_ctl.specs.Answers.{IsVerdict, WritesReport, WritesRefusal, WritesPrefix, KeepsAlong, IsAnswer, HasReport};

use gz_base::{Exit, Sink, Source, write_all};
use gz_label::{Blob, NoMemory};
use gz_world::{
    ReplayError, a_scenario_is_what_its_lines_say, a_settle_ends_every_run,
    every_run_is_exactly_once, refusal_line, replay, what_a_report_tells_is_so,
};
use std::alloc::Global;

const USAGE: &[u8] = b"usage: gazette replay|storm|attach-uuids|journals|shards|serve\n";

/// How a command ends, and the text with which it says so.
#[derive(Debug, Drop)]
pub struct Verdict {
    pub exit: Exit,
    pub text: Blob,
}

fn is_replay(words: &[String]) -> bool
    ensures { result ≡ is_command (map string_bytes words.now) }
{
    match words {
        [name, file] => name.as_str() == "replay" && file.as_str() == "-",
        _ => false,
    }
}

/// Writes the text, and answers as given, or that it couldn't be written.
fn say<K: Sink>(output: &mut K, text: &[u8], exit: Exit) -> Exit
    requires { exit ≢ Exit.WriteFault }
    ensures answers { (result ≡ exit) ⊎ (result ≡ Exit.WriteFault) }
    ensures said { result ≡ exit → Appends (K.held output.old) (K.held output.new) text.now }
    ensures prefix { result ≡ Exit.WriteFault →
        AppendsPrefix (K.held output.old) (K.held output.new) text.now }
    ensures fault { result ≡ Exit.WriteFault →
        HasRisen (K.faults output.old) (K.faults output.new) }
    ensures faults_stay { K.faults output.old ≤ K.faults output.new }
{
    match write_all(output, text) {
        Ok(()) => exit,
        Err(_) => Exit::WriteFault,
    }
}

/// Replays the input, and says how that ends: with the report, with a refused line, or with the read fault.
fn judge<S: Source>(alloc: Global, input: &mut S) -> Result<Verdict, NoMemory>
    ensures verdict { IfOk result
        (λ v. IsVerdict v.exit v.text (S.left input.old) (S.left input.new) (S.faults input.old)
        (S.faults input.new)) }
    ensures faults_stay { S.faults input.old ≤ S.faults input.new }
{
    match replay(alloc, input) {
        Ok(None) => Ok(Verdict {
            exit: Exit::Done,
            text: Blob::new(alloc),
        }),
        Ok(Some(world)) => {
            let text = world.report(alloc)?;
            Ok(Verdict {
                exit: Exit::Done,
                text,
            })
        }
        Err(ReplayError::Refused(refusal)) => {
            let text = refusal_line(alloc, &refusal)?;
            Ok(Verdict {
                exit: Exit::BadInput,
                text,
            })
        }
        Err(ReplayError::Fault) => {
            let text = Blob::of(alloc, b"read fault\n")?;
            Ok(Verdict {
                exit: Exit::ReadFault,
                text,
            })
        }
        Err(ReplayError::NoMemory) => Err(NoMemory),
    }
}

/// Runs the command that the words are, which so far is `replay -`: it replays the scenario that the
/// input is, and writes its report. It always returns.
///
/// It answers Usage only where the words are no command, and BadInput only where a line is refused;
/// ReadFault and WriteFault only where the input's or the output's count of faults rose in this call.
/// Where memory runs out the answer is NoMemory, and nothing was written. Else it is Done.
pub fn gazctl<S: Source, K: Sink>(
    alloc: Global,
    words: &[String],
    input: &mut S,
    output: &mut K,
) -> Exit
    // The words are no command, and the usage line was written.
    ensures usage { result ≡ Exit.Usage →
        (is_command (map string_bytes words.now) ≡ false)
        × Appends (K.held output.old) (K.held output.new) usage_text }
    ensures no_command { is_command (map string_bytes words.now) ≡ false →
        (result ≡ Exit.Usage) ⊎ (result ≡ Exit.WriteFault) }

    // The report of a run of exactly the input's lines, which was read to its end, and of whose world the promise is kept.
    ensures done { result ≡ Exit.Done →
        WritesReport (S.left input.old) (K.held output.old) (K.held output.new)
        × IsAtEnd (S.left input.new) }
    // It is kept after each of the lines, too, whatever is placed where.
    ensures exactly_once { KeepsAlong (S.left input.old) }

    // The first line that is refused, and why.
    ensures bad_input { result ≡ Exit.BadInput →
        WritesRefusal (S.left input.old) (K.held output.old) (K.held output.new) }

    // A fault is answered only where it was counted in this call.
    ensures read_fault { result ≡ Exit.ReadFault →
        HasRisen (S.faults input.old) (S.faults input.new)
        × Appends (K.held output.old) (K.held output.new) read_fault_text }
    ensures write_fault { result ≡ Exit.WriteFault →
        HasRisen (K.faults output.old) (K.faults output.new)
        × WritesPrefix (is_command (map string_bytes words.now)) (S.left input.old)
        (HasRisen (S.faults input.old) (S.faults input.new)) (K.held output.old)
        (K.held output.new) }

    // Memory ran out before anything was written.
    ensures no_memory { result ≡ Exit.NoMemory → Keeps (K.held output.old) (K.held output.new) }
    ensures answers { IsAnswer result }

    // Lawful lines within the limits, and no fault: the answer is Done, if memory is found.
    ensures complete { is_command (map string_bytes words.now) ≡ true →
        HasReport (S.left input.old) →
        (result ≡ Exit.Done)
        ⊎ ((result ≡ Exit.NoMemory)
        ⊎ (HasRisen (S.faults input.old) (S.faults input.new)
        ⊎ HasRisen (K.faults output.old) (K.faults output.new))) }
{
    a_scenario_is_what_its_lines_say();
    every_run_is_exactly_once();
    a_settle_ends_every_run();
    what_a_report_tells_is_so();
    if is_replay(words) {
        return match judge(alloc, input) {
            Ok(verdict) => {
                let exit = verdict.exit;
                say(output, verdict.text.as_slice(), exit)
            }
            Err(_) => Exit::NoMemory,
        };
    }
    say(output, USAGE, Exit::Usage)
}
