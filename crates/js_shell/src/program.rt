//! The program: what the words ask for is done and answered.

ghost use Rattle.std.specs.Prelude.{◌≡◌, ◌≤◌, ◌↔◌, ℕ, true, false, List, Option, IfSome};
ghost use Rattle.flow_io.specs.Files.{Rose, IsStoreKept};
ghost use Rattle.js_shell.specs.Answering.{Answers, is_write_fault};
ghost use Rattle.run_files.specs.Tasks.{read_fault_report};
ghost use Rattle.js_shell.specs.Replies.{Reads, IsReply};
ghost use Rattle.js_shell.specs.Promises.{Told, UnlessEarly, IfEarly, Isolates, IsPlain, Stops, IsCommonView, IsComplete};
ghost use Rattle.js_shell.specs.Causes.{Exactly, IsUsage, IsSource, IsBadPolicy, IsDone, IsThrew, IsStopped, IsLeft, IsOutOfTurns, IsUnfinished, IsEarlyFront};
ghost use Rattle.command_line.specs.Reading.{texts_of};

use crate::commands::{check, run_one, run_two, try_script, write_script};
use crate::putting::put_reply;
use crate::status::Status;
use command_line::{Command, WordsFault, read_words};
use flow_io::{Sink, Store};
use low_equal::{declared, erasure, two_runs};
use std::alloc::Global;

/// Does all of `jsflow`: reads what the words name, runs the script under the policy with its input or inputs, checks it alone, or makes one, and
/// puts its lines and its report.
pub fn shell<F: Store, K: Sink>(
    alloc: Global,
    words: &[String],
    store: &mut F,
    sink: &mut K,
) -> Status
    requires asked { (path : List ℕ) → Reads (F.contents store.old) (texts_of words.now) path → F.may_ask store.old path ≡ true }
    requires open { K.shut sink.old ≡ false }
    ensures reply { Told (F.contents store.old) (K.taken sink.old) (K.taken sink.new) (λ files out. UnlessEarly result (IsReply (texts_of words.now) files (record { bytes = out; status = result }))) }
    ensures isolation { Told (F.contents store.old) (K.taken sink.old) (K.taken sink.new) (Isolates (texts_of words.now) result) }
    ensures plain { Told (F.contents store.old) (K.taken sink.old) (K.taken sink.new) (IsPlain (texts_of words.now) result) }
    ensures stops { Told (F.contents store.old) (K.taken sink.old) (K.taken sink.new) (Stops (texts_of words.now) result) }
    ensures common_view { Told (F.contents store.old) (K.taken sink.old) (K.taken sink.new) (IsCommonView (texts_of words.now) result) }
    ensures complete { IfSome (F.contents store.old) (λ files. UnlessEarly result (IsComplete (texts_of words.now) result files)) }
    ensures done { IfSome (F.contents store.old) (λ files. Exactly result Status.Done (IsDone (texts_of words.now) files)) }
    ensures threw { IfSome (F.contents store.old) (λ files. Exactly result Status.Threw (IsThrew (texts_of words.now) files)) }
    ensures usage { Exactly result Status.Usage (IsUsage (texts_of words.now)) }
    ensures source { IfSome (F.contents store.old) (λ files. Exactly result Status.Source (IsSource (texts_of words.now) files)) }
    ensures policy { IfSome (F.contents store.old) (λ files. Exactly result Status.Policy (IsBadPolicy (texts_of words.now) files)) }
    ensures stopped { IfSome (F.contents store.old) (λ files. Exactly result Status.Stopped (IsStopped (texts_of words.now) files)) }
    ensures left { IfSome (F.contents store.old) (λ files. Exactly result Status.Left (IsLeft (texts_of words.now) files)) }
    ensures out_of_turns { IfSome (F.contents store.old) (λ files. Exactly result Status.OutOfTurns (IsOutOfTurns (texts_of words.now) files)) }
    ensures unfinished { IfSome (F.contents store.old) (λ files. Exactly result Status.Unfinished (IsUnfinished (texts_of words.now) files)) }
    ensures read_fault { result ≡ Status.ReadFault → Rose (F.faults store.old) (F.faults store.new) }
    ensures no_read_fault { UnlessEarly result (F.faults store.new ≡ F.faults store.old) }
    ensures read_report { Told (F.contents store.old) (K.taken sink.old) (K.taken sink.new) (λ files out. result ≡ Status.ReadFault → out ≡ read_fault_report) }
    ensures write_fault { (result ≡ Status.WriteFault) ↔ (K.shut sink.new ≡ true) }
    ensures write_failed { result ≡ Status.WriteFault → Rose (K.faults sink.old) (K.faults sink.new) }
    ensures early { Told (F.contents store.old) (K.taken sink.old) (K.taken sink.new) (λ files out. IfEarly result (IsEarlyFront (texts_of words.now) (Rose (F.faults store.old) (F.faults store.new)) files out)) }
    ensures kept { IsStoreKept F.contents F.may_ask F.faults store.old store.new }
    ensures faults_stay { K.faults sink.old ≤ K.faults sink.new }
{
    erasure();
    two_runs();
    declared();
    answer(alloc, words, store, sink)
}

/// Does what the words ask for.
fn answer<F: Store, K: Sink>(alloc: Global, words: &[String], store: &mut F, sink: &mut K) -> Status
    requires asked { (path : List ℕ) → Reads (F.contents store.old) (texts_of words.now) path → F.may_ask store.old path ≡ true }
    requires open { K.shut sink.old ≡ false }
    ensures answers { Answers (F.contents store.old) (IsReply (texts_of words.now)) (Rose (F.faults store.old) (F.faults store.new)) (K.taken sink.old) (K.taken sink.new) result }
    ensures usage { Exactly result Status.Usage (IsUsage (texts_of words.now)) }
    ensures no_read_fault { UnlessEarly result (F.faults store.new ≡ F.faults store.old) }
    ensures kept { IsStoreKept F.contents F.may_ask F.faults store.old store.new }
    ensures shut { K.shut sink.new ≡ is_write_fault result }
    ensures faults_stay { K.faults sink.old ≤ K.faults sink.new }
    ensures failed { result ≡ Status.WriteFault → Rose (K.faults sink.old) (K.faults sink.new) }
{
    match read_words(alloc, words) {
        Ok(Command::Run(words)) => run_one(alloc, &words, store, sink),
        Ok(Command::Check { script }) => check(alloc, script, store, sink),
        Ok(Command::Pair(words)) => run_two(alloc, &words, store, sink),
        Ok(Command::Make { number }) => write_script(alloc, number, sink),
        Ok(Command::Trial { number }) => try_script(alloc, number, sink),
        Err(WordsFault::Usage) => put_reply(sink, b"! usage\n", Status::Usage),
        Err(WordsFault::OutOfMemory) => Status::OutOfMemory,
    }
}
